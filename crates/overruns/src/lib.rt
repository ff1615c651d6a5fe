// An energy window's overrun, at its need.
#![tactic(auto)]

ghost use Rattle.std.specs.Prelude.{◌≡◌, ◌+◌, ◌-◌, ◌<◌, ◌≤◌, length};
ghost use Rattle.overruns.specs.Energies.{longest, minutes_of, Running, Spent, energy_to, over_of};

use energy::KwMin;
use kilowatts::Kw;
use row_places::EnergyWindow;

// The minutes that an interval from start to end shares with a window, 0 where they do not meet.
fn minutes_in(w: EnergyWindow, start: u32, end: u32) -> u32
    requires { end ≤ start + longest }
    ensures { (result ≡ minutes_of w start end) × (result ≤ longest) }
{
    let from = start.max(w.from);
    let until = end.min(w.until);
    until.saturating_sub(from)
}

// The intervals that end before a window, or where it begins.
fn ahead_of(w: EnergyWindow, starts: &[u32], powers: &[u32]) -> usize
    requires { Running starts.now powers.now }
    ensures { (result ≤ length powers.now) × Spent w starts.now powers.now result 0 }
{
    for t in 0..powers.len() {
        if w.from < starts[t + 1] {
            return t;
        }
    }
    powers.len()
}

// A device's energy in a window, over its part of the powers: only the intervals that meet the window are looked at.
fn energy_in(w: EnergyWindow, starts: &[u32], powers: &[u32]) -> KwMin
    requires { Running starts.now powers.now }
    ensures { result.0 ≡ energy_to w starts.now powers.now (length powers.now) }
{
    let mut energy = KwMin(0);
    for t in ahead_of(w, starts, powers)..powers.len() {
        if w.until <= starts[t] {
            return energy;
        }
        let minutes = minutes_in(w, starts[t], starts[t + 1]);
        energy = energy.plus(Kw(powers[t]).over(minutes));
    }
    energy
}

// A window's overrun: "above a maximum or below a minimum", at its need, over a device's part of the powers.
pub fn overrun(w: EnergyWindow, starts: &[u32], powers: &[u32]) -> KwMin
    requires { Running starts.now powers.now }
    ensures { result.0 ≡ over_of w (energy_to w starts.now powers.now (length powers.now)) }
{
    let energy = energy_in(w, starts, powers);
    let limit = w.energy;
    if w.kind == 0 {
        energy.less(limit)
    } else {
        limit.less(energy)
    }
}
