// Rules 3 and 4: how far back a stop or a start lies, out of a device's part of the settings.
#![tactic(auto)]

ghost use Rattle.std.specs.Prelude.{◌≡◌, true, ◌<◌, eqb, length};
ghost use Rattle.numbers.specs.Base.{implies};
ghost use Rattle.rests.specs.Apart.{Rising, changed_at, apart_at};

use row_places::SettingRow;
use setting_rows::{started_at, stopped_at};

// What must lie back: starts or stops, and by how many minutes.
#[derive(Clone, Copy)]
pub struct Rest {
    pub starts: bool,
    pub least: u32,
    pub on0: u32,
}

fn changes(r: Rest, settings: &[SettingRow], e: usize) -> u32
    requires { e < length settings.now }
    ensures { result ≡ changed_at r settings.now e }
{
    if r.starts {
        started_at(r.on0, settings, e)
    } else {
        stopped_at(r.on0, settings, e)
    }
}

// Back from the interval before t: where a change lies far enough back, all before it do.
fn all_far_back(r: Rest, settings: &[SettingRow], starts: &[u32], t: usize) -> bool
    requires { (t < length settings.now) × (t < length starts.now) × Rising starts.now t }
    ensures { result ≡ apart_at r settings.now starts.now t }
{
    let start = starts[t];
    for e in (0..t).rev() {
        let back = start - starts[e];
        if r.least <= back {
            return true;
        }
        if changes(r, settings, e) == 1 {
            return false;
        }
    }
    true
}

// Rules 3 and 4.
pub fn rest_kept(changed: u32, r: Rest, settings: &[SettingRow], starts: &[u32], t: usize) -> bool
    requires { (t < length settings.now) × (t < length starts.now) × Rising starts.now t }
    ensures { result ≡ implies (eqb changed 1) (apart_at r settings.now starts.now t) }
{
    if changed == 1 {
        all_far_back(r, settings, starts, t)
    } else {
        true
    }
}
