// Trying another online power in a decoded plan: whether the plan with it breaks no rule. The plan stays as it was.
#![tactic(auto)]

ghost use Rattle.std.specs.Prelude.{◌≡◌, ◌+◌, ◌*◌, ◌≤◌, ◌<◌, length};
ghost use Rattle.model.specs.Breaches.{breaches};
ghost use Rattle.records.specs.Views.{system_in, plan_in};
ghost use Rattle.mending.specs.Mending.{is_empty, most_online};
ghost use Rattle.mending_theorems.specs.Answer.{span_at};
ghost use Rattle.mend_tries.specs.Tries.{Judgeable, Tests, Tries};

use breaches::first_breach;
use cell_spans::span_at;
use kilowatts::Kw;
use online_rows::put_online;
use powers::force;
use row_places::{CellRow, DeviceRow, Front, MinimaRow, SettingRow, ZoneRow};
use setting_rows::online_at;
use spans::{Span, clamp, is_empty};

// Whether a plan breaks no rule.
fn unbroken(
    front: Front,
    halves: &[u32],
    zones: &[ZoneRow],
    minima: &[MinimaRow],
    devices: &[DeviceRow],
    cells: &[CellRow],
    settings: &[SettingRow],
    starts: &mut [u32],
    powers: &mut [u32],
) -> bool
    requires { Judgeable front halves.now zones.now minima.now devices.now cells.now settings.now starts.old powers.old }
    ensures { result ≡ is_empty (breaches (system_in halves.now zones.now minima.now devices.now cells.now)
        (plan_in (length devices.now) (length halves.now) settings.now)) }
{
    force(halves, devices, cells, settings, starts, powers);
    let first = first_breach(
        front, halves, zones, minima, devices, cells, settings, starts, powers,
    );
    match first {
        Some(b) => false,
        None => true,
    }
}

// Whether the plan with x in place of the online power of interval t and device i, row k, breaks no rule.
fn try_power(
    front: Front,
    halves: &[u32],
    zones: &[ZoneRow],
    minima: &[MinimaRow],
    devices: &[DeviceRow],
    cells: &[CellRow],
    settings: &mut [SettingRow],
    starts: &mut [u32],
    powers: &mut [u32],
    i: usize,
    t: usize,
    k: usize,
    x: Kw,
) -> bool
    requires { Judgeable front halves.now zones.now minima.now devices.now cells.now settings.old starts.old powers.old
        × (i < length devices.now) × (t < length halves.now) × (k ≡ i * length halves.now + t) × (x.0 ≤ 100000) }
    ensures { Tests front halves.now zones.now minima.now devices.now cells.now settings.old i t x.0
        settings.new result }
{
    let old = online_at(settings, k);
    put_online(settings, k, x);
    let r = unbroken(
        front, halves, zones, minima, devices, cells, settings, starts, powers,
    );
    put_online(settings, k, old);
    r
}

// The span of interval t and device i, whose parts begin at a.
fn span_of(
    front: Front,
    halves: &[u32],
    zones: &[ZoneRow],
    minima: &[MinimaRow],
    devices: &[DeviceRow],
    cells: &[CellRow],
    settings: &[SettingRow],
    starts: &mut [u32],
    powers: &mut [u32],
    i: usize,
    a: usize,
    t: usize,
) -> Span
    requires { Judgeable front halves.now zones.now minima.now devices.now cells.now settings.now starts.old powers.old
        × (i < length devices.now) × (a ≡ i * length halves.now) × (t < length halves.now) }
    ensures { result ≡ span_at most_online (system_in halves.now zones.now minima.now devices.now cells.now)
        (plan_in (length devices.now) (length halves.now) settings.now) t i }
{
    force(halves, devices, cells, settings, starts, powers);
    span_at(
        front, halves, zones, minima, devices, cells, settings, starts, powers, i, a, t,
    )
}

// The nearest power of interval t and device i, whose parts begin at a, where the plan with it breaks no rule.
pub fn try_at(
    front: Front,
    halves: &[u32],
    zones: &[ZoneRow],
    minima: &[MinimaRow],
    devices: &[DeviceRow],
    cells: &[CellRow],
    settings: &mut [SettingRow],
    starts: &mut [u32],
    powers: &mut [u32],
    i: usize,
    a: usize,
    t: usize,
) -> Option<u32>
    requires { Judgeable front halves.now zones.now minima.now devices.now cells.now settings.old starts.old powers.old
        × (i < length devices.now) × (a ≡ i * length halves.now) × (t < length halves.now) }
    ensures { Tries front halves.now zones.now minima.now devices.now cells.now settings.old i t
        settings.new result }
{
    let k = a + t;
    let span = span_of(
        front, halves, zones, minima, devices, cells, settings, starts, powers, i, a, t,
    );
    if is_empty(span) {
        return None;
    }
    let old = online_at(settings, k);
    let new = clamp(span, u64::from(old.0)) as u32;
    if try_power(
        front,
        halves,
        zones,
        minima,
        devices,
        cells,
        settings,
        starts,
        powers,
        i,
        t,
        k,
        Kw(new),
    ) {
        return Some(new);
    }
    None
}
