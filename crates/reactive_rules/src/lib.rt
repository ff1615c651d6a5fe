// Rules 21 to 26 of a device in one interval, out of its parts of the tables, which t alone indexes.
#![tactic(auto)]

ghost use Rattle.std.specs.Prelude.{◌≡◌, true, ◌↔◌, [], ◌≤◌, ◌<◌, length};
ghost use Rattle.model.specs.Breaches.{failing};
ghost use Rattle.row_places.specs.Figures.{reactive_at, reactive_cell_at};
ghost use Rattle.cell_bounds.specs.Word.{failing_word};
ghost use Rattle.reactive_rules.specs.Rules.{reactive_bounds_of, reactive_tests_at, ReactiveFits, Idle, AllReactiveFit, ReactiveHeldTo};

use brackets::bracket_given;
use cell_rows::reactive_cell_at;
use kilowatts::Kw;
use ramped_powers::{Ramping, ramping_of};
use reactive_tests::{KVAR_OFFSET, failing_figures, figures_held};
use row_places::{CellRow, Device, Link, Reactive, ReactiveCell, SettingRow};
use setting_rows::reactive_at;

// Link kind: none.
const NO_LINK: u32 = 0;

// What the reactive rules of a device's intervals read of it.
#[derive(Clone, Copy)]
pub struct ReactiveBounds {
    pub side: u32,
    pub link: Link,
    pub ramping: Ramping,
}

pub fn reactive_bounds_of(d: Device) -> ReactiveBounds
    ensures { result ≡ reactive_bounds_of d }
{
    let link = d.link;
    let ramping = ramping_of(d);
    ReactiveBounds {
        side: d.side,
        link,
        ramping,
    }
}

// Whether nothing is reactive: no link, no reactive power, no reserve, and limits on either side of 0. Each rule holds then, whatever n is.
fn idle(kind: u32, c: ReactiveCell, x: Reactive) -> bool
    ensures { result ≡ true → Idle kind c x }
{
    kind == NO_LINK
        && x.q.0 == KVAR_OFFSET
        && x.qru.0 == 0
        && x.qrd.0 == 0
        && c.qmin.0 <= KVAR_OFFSET
        && KVAR_OFFSET <= c.qmax.0
}

// Whether nothing of interval t is reactive.
fn idle_at(kind: u32, cells: &[CellRow], settings: &[SettingRow], t: usize) -> bool
    requires { (t < length cells.now) × (t < length settings.now) }
    ensures { result ≡ true → Idle kind (reactive_cell_at cells.now t) (reactive_at settings.now t) }
{
    let c = reactive_cell_at(cells, t);
    let x = reactive_at(settings, t);
    idle(kind, c, x)
}

// The reactive rules of interval t that fail: bit k for rule k.
pub fn failing_reactive(
    d: ReactiveBounds,
    cells: &[CellRow],
    settings: &[SettingRow],
    starts: &[u32],
    powers: &[u32],
    t: usize,
) -> u32
    requires { ReactiveFits d cells.now settings.now starts.now powers.now t }
    ensures { result ≡ failing_word (reactive_tests_at d cells.now settings.now starts.now powers.now t) }
{
    let link = d.link;
    if idle_at(link.kind, cells, settings, t) {
        return 0;
    }
    let ramping = d.ramping;
    let power = Kw(powers[t]);
    let n = bracket_given(ramping, cells, settings, starts, t, power);
    let c = reactive_cell_at(cells, t);
    let x = reactive_at(settings, t);
    failing_figures(d.side, n, power, link, c, x)
}

// Whether none of interval t fails, in one go.
fn held_at(
    d: ReactiveBounds,
    cells: &[CellRow],
    settings: &[SettingRow],
    starts: &[u32],
    powers: &[u32],
    t: usize,
) -> bool
    requires { ReactiveFits d cells.now settings.now starts.now powers.now t }
    ensures { (result ≡ true) ↔ (failing (reactive_tests_at d cells.now settings.now starts.now powers.now t) ≡ []) }
{
    let link = d.link;
    let ramping = d.ramping;
    let power = Kw(powers[t]);
    let n = bracket_given(ramping, cells, settings, starts, t, power);
    let c = reactive_cell_at(cells, t);
    let x = reactive_at(settings, t);
    figures_held(d.side, n, power, link, c, x)
}

// The intervals ahead of the first of which something is reactive: no rule fails there.
fn idle_front(
    d: ReactiveBounds,
    cells: &[CellRow],
    settings: &[SettingRow],
    starts: &[u32],
    powers: &[u32],
) -> usize
    requires { AllReactiveFit d cells.now settings.now starts.now powers.now }
    ensures { (result ≤ length cells.now) × ReactiveHeldTo d cells.now settings.now starts.now powers.now result }
{
    for t in 0..cells.len() {
        if !idle_at(d.link.kind, cells, settings, t) {
            return t;
        }
    }
    cells.len()
}

// Whether no reactive rule of a device's intervals fails.
pub fn reactive_held(
    d: ReactiveBounds,
    cells: &[CellRow],
    settings: &[SettingRow],
    starts: &[u32],
    powers: &[u32],
) -> bool
    requires { AllReactiveFit d cells.now settings.now starts.now powers.now }
    ensures { (result ≡ true) ↔ ReactiveHeldTo d cells.now settings.now starts.now powers.now (length cells.now) }
{
    for t in idle_front(d, cells, settings, starts, powers)..cells.len() {
        if !held_at(d, cells, settings, starts, powers, t) {
            return false;
        }
    }
    true
}
