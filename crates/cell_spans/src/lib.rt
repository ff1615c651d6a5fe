// The span of online powers that the moved rules of an interval and device leave.
#![tactic(auto)]

ghost use Rattle.std.specs.Prelude.{◌≡◌, ◌+◌, ◌-◌, ◌*◌, ◌≤◌, ◌<◌, length, get_or};
ghost use Rattle.spans.specs.Spans.{whole, within};
ghost use Rattle.mending.specs.Mending.{most_online};
ghost use Rattle.mending_theorems.specs.Answer.{span_at};
ghost use Rattle.records.specs.Views.{system_in, plan_in, most_power, Ready};
ghost use Rattle.moments.specs.Moments.{Fits};
ghost use Rattle.reactive_rules.specs.Rules.{ReactiveFits};
ghost use Rattle.row_places.specs.Figures.{online_at};
ghost use Rattle.cell_spans.specs.Parts.{real_bounds_at, next_bounds_at, line_bounds_at, parts_span, SpanFits};

use brackets::bracket_given;
use cell_bounds::{Bounds, bounds_of};
use cell_rows::cell_at;
use device_rows::device_at;
use kilowatts::Kw;
use line_spans::within_lines;
use moments::moment_at;
use power_spans::{within_blocks, within_next, within_ramps, within_reserves};
use reactive_rules::{ReactiveBounds, reactive_bounds_of};
use row_places::{CellRow, DeviceRow, Front, MinimaRow, SettingRow, ZoneRow};
use setting_rows::{online_at, reactive_at, setting_at};
use spans::{Span, whole_span};

// "from 0 to 100,000"
const MOST_ONLINE: u64 = 100000;

// Rules 5, 6, 16, 17 and 19 of interval t.
fn real_span(
    d: Bounds,
    power0: Kw,
    halves: &[u32],
    cells: &[CellRow],
    settings: &[SettingRow],
    starts: &[u32],
    powers: &[u32],
    t: usize,
) -> Span
    requires { Fits d power0.0 halves.now cells.now settings.now starts.now powers.now t }
    ensures { result ≡ within (whole most_online) (real_bounds_at d power0.0 halves.now cells.now settings.now starts.now powers.now t) }
{
    let w = moment_at(d, power0, halves, cells, settings, starts, powers, t);
    let c = cell_at(cells, t);
    let s = setting_at(settings, t);
    let all = whole_span(MOST_ONLINE);
    let ramps = within_ramps(all, d, c, s, w);
    let reserves = within_reserves(ramps, d, c, s, w);
    within_blocks(reserves, d, c, s, w)
}

// Rules 5 and 6 of interval t, where the power before it is that interval's online power and a.
fn next_span(
    span: Span,
    d: Bounds,
    power0: Kw,
    halves: &[u32],
    cells: &[CellRow],
    settings: &[SettingRow],
    starts: &[u32],
    powers: &[u32],
    t: usize,
    a: u64,
) -> Span
    requires { Fits d power0.0 halves.now cells.now settings.now starts.now powers.now t × (a ≤ most_power) }
    ensures { result ≡ within span (next_bounds_at d power0.0 halves.now cells.now settings.now starts.now powers.now t a) }
{
    let w = moment_at(d, power0, halves, cells, settings, starts, powers, t);
    let c = cell_at(cells, t);
    let s = setting_at(settings, t);
    within_next(span, d, c, s, w, a)
}

// Rules 23 to 25 of interval t.
fn lines_span(
    span: Span,
    d: ReactiveBounds,
    cells: &[CellRow],
    settings: &[SettingRow],
    starts: &[u32],
    powers: &[u32],
    t: usize,
) -> Span
    requires { ReactiveFits d cells.now settings.now starts.now powers.now t × (t < length settings.now) }
    ensures { result ≡ within span (line_bounds_at d cells.now settings.now starts.now powers.now t) }
{
    let link = d.link;
    let ramping = d.ramping;
    let power = Kw(powers[t]);
    let online = online_at(settings, t);
    let a = power.less(online);
    let n = bracket_given(ramping, cells, settings, starts, t, power);
    let x = reactive_at(settings, t);
    within_lines(span, d.side, n, a, link, x)
}

// What the power of interval t has beside its online power.
fn beside(settings: &[SettingRow], powers: &[u32], t: usize) -> u64
    requires { (t < length settings.now) × (t < length powers.now) × (get_or powers.now t 0 ≤ most_power) }
    ensures { (result ≡ get_or powers.now t 0 - online_at settings.now t) × (result ≤ most_power) }
{
    let power = Kw(powers[t]);
    let online = online_at(settings, t);
    let a = power.less(online);
    u64::from(a.0)
}

// The span of interval t of a device, out of its parts of the tables.
fn parts_span(
    d: Bounds,
    r: ReactiveBounds,
    power0: Kw,
    halves: &[u32],
    cells: &[CellRow],
    settings: &[SettingRow],
    starts: &[u32],
    powers: &[u32],
    t: usize,
) -> Span
    requires { SpanFits d r power0.0 halves.now cells.now settings.now starts.now powers.now t }
    ensures { result ≡ parts_span d r power0.0 halves.now cells.now settings.now starts.now powers.now t }
{
    let next = t + 1;
    let real = real_span(d, power0, halves, cells, settings, starts, powers, t);
    let lines = lines_span(real, r, cells, settings, starts, powers, t);
    if next < halves.len() {
        let a = beside(settings, powers, t);
        return next_span(
            lines, d, power0, halves, cells, settings, starts, powers, next, a,
        );
    }
    lines
}

// The span of interval t and device i, whose parts begin at a.
pub fn span_at(
    front: Front,
    halves: &[u32],
    zones: &[ZoneRow],
    minima: &[MinimaRow],
    devices: &[DeviceRow],
    cells: &[CellRow],
    settings: &[SettingRow],
    starts: &[u32],
    powers: &[u32],
    i: usize,
    a: usize,
    t: usize,
) -> Span
    requires { Ready front halves.now zones.now minima.now devices.now cells.now settings.now starts.now powers.now
        × (i < length devices.now) × (a ≡ i * length halves.now) × (t < length halves.now) }
    ensures { result ≡ span_at most_online (system_in halves.now zones.now minima.now devices.now cells.now)
        (plan_in (length devices.now) (length halves.now) settings.now) t i }
{
    let d = device_at(devices, i);
    let b = bounds_of(d);
    let r = reactive_bounds_of(d);
    let e = a + halves.len();
    let own_cells = &cells[a..e];
    let own = &settings[a..e];
    let own_powers = &powers[a..e];
    parts_span(
        b, r, d.power0, halves, own_cells, own, starts, own_powers, t,
    )
}
