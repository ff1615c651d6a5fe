// The smallest power change that mends a broken plan, in a decoded plan that breaks a rule: from the first breach, by at most two tries.
#![tactic(auto)]

ghost use Rattle.std.specs.Prelude.{◌≡◌, ◌+◌, ◌*◌, ◌<◌, length};
ghost use Rattle.model.specs.Breaches.{breaches};
ghost use Rattle.records.specs.Views.{system_in, plan_in};
ghost use Rattle.breaches.specs.First.{first};
ghost use Rattle.std.specs.Prelude.{Some};
ghost use Rattle.mending.specs.Mending.{most_online};
ghost use Rattle.mending.specs.Mendings.{told};
ghost use Rattle.mending_theorems.specs.Answer.{mended_from};
ghost use Rattle.mend_tries.specs.Tries.{Judgeable};
ghost use Rattle.mend_plans.specs.Tries.{cell_answer};

use mend_tries::try_at;
use mending::Mending;
use model::Breach;
use nearer_tries::{answer, nearer};
use row_places::{CellRow, DeviceRow, Front, MinimaRow, SettingRow, ZoneRow};
use setting_rows::online_at;

// The two tries of a breach in interval t, not the first, and device i, whose parts begin at a.
fn both(
    front: Front,
    halves: &[u32],
    zones: &[ZoneRow],
    minima: &[MinimaRow],
    devices: &[DeviceRow],
    cells: &[CellRow],
    settings: &mut [SettingRow],
    starts: &mut [u32],
    powers: &mut [u32],
    i: usize,
    a: usize,
    t: usize,
) -> Mending
    requires { Judgeable front halves.now zones.now minima.now devices.now cells.now settings.old starts.old powers.old
        × (i < length devices.now) × (a ≡ i * length halves.now) × (t + 1 < length halves.now) }
    ensures { result ≡ cell_answer (system_in halves.now zones.now minima.now devices.now cells.now)
        (plan_in (length devices.now) (length halves.now) settings.old) (t + 1) i }
{
    let u = t + 1;
    let before = online_at(settings, a + t);
    let now = online_at(settings, a + u);
    let first = try_at(
        front, halves, zones, minima, devices, cells, settings, starts, powers, i, a, t,
    );
    let second = try_at(
        front, halves, zones, minima, devices, cells, settings, starts, powers, i, a, u,
    );
    nearer(u, i, before, now, first, second)
}

// The one try of a breach in the first interval and device i, whose parts begin at a.
fn alone(
    front: Front,
    halves: &[u32],
    zones: &[ZoneRow],
    minima: &[MinimaRow],
    devices: &[DeviceRow],
    cells: &[CellRow],
    settings: &mut [SettingRow],
    starts: &mut [u32],
    powers: &mut [u32],
    i: usize,
    a: usize,
) -> Mending
    requires { Judgeable front halves.now zones.now minima.now devices.now cells.now settings.old starts.old powers.old
        × (i < length devices.now) × (a ≡ i * length halves.now) × (0 < length halves.now) }
    ensures { result ≡ cell_answer (system_in halves.now zones.now minima.now devices.now cells.now)
        (plan_in (length devices.now) (length halves.now) settings.old) 0 i }
{
    let r = try_at(
        front, halves, zones, minima, devices, cells, settings, starts, powers, i, a, 0,
    );
    answer(0, i, r)
}

// The tries of a breach in interval t and device i.
fn mend_at(
    front: Front,
    halves: &[u32],
    zones: &[ZoneRow],
    minima: &[MinimaRow],
    devices: &[DeviceRow],
    cells: &[CellRow],
    settings: &mut [SettingRow],
    starts: &mut [u32],
    powers: &mut [u32],
    i: usize,
    t: usize,
) -> Mending
    requires { Judgeable front halves.now zones.now minima.now devices.now cells.now settings.old starts.old powers.old
        × (i < length devices.now) × (t < length halves.now) }
    ensures { result ≡ cell_answer (system_in halves.now zones.now minima.now devices.now cells.now)
        (plan_in (length devices.now) (length halves.now) settings.old) t i }
{
    let a = i * halves.len();
    if t == 0 {
        return alone(
            front, halves, zones, minima, devices, cells, settings, starts, powers, i, a,
        );
    }
    both(
        front,
        halves,
        zones,
        minima,
        devices,
        cells,
        settings,
        starts,
        powers,
        i,
        a,
        t - 1,
    )
}

// The smallest change that mends a plan whose first breach is b.
pub fn mend_broken(
    front: Front,
    halves: &[u32],
    zones: &[ZoneRow],
    minima: &[MinimaRow],
    devices: &[DeviceRow],
    cells: &[CellRow],
    settings: &mut [SettingRow],
    starts: &mut [u32],
    powers: &mut [u32],
    b: Breach,
) -> Mending
    requires { Judgeable front halves.now zones.now minima.now devices.now cells.now settings.old starts.old powers.old
        × (first (breaches (system_in halves.now zones.now minima.now devices.now cells.now) (plan_in (length devices.now) (length halves.now) settings.old)) ≡ Some b) }
    ensures { result ≡ told (mended_from most_online (system_in halves.now zones.now minima.now devices.now cells.now)
        (plan_in (length devices.now) (length halves.now) settings.old) b) }
{
    if b.interval == 0 || b.device == 0 {
        return Mending::Nothing;
    }
    let t = (b.interval - 1) as usize;
    let i = (b.device - 1) as usize;
    mend_at(
        front, halves, zones, minima, devices, cells, settings, starts, powers, i, t,
    )
}
