// Rule 20: the starts in a window, out of a device's part of the settings.
#![tactic(auto)]

ghost use Rattle.std.specs.Prelude.{◌≡◌, true, ◌≤◌, leb, length};
ghost use Rattle.records.specs.Views.{most_intervals};
ghost use Rattle.start_windows.specs.Windows.{Timed, Reached, starts_at, all_starts};

use row_places::{SettingRow, StartWindow};
use setting_rows::started_at;

// The intervals that begin before a window: no start there counts.
fn ahead_of(w: StartWindow, on0: u32, settings: &[SettingRow], starts: &[u32]) -> usize
    requires { Timed settings.now starts.now }
    ensures { Reached w on0 settings.now starts.now result 0 }
{
    for t in 0..settings.len() {
        if w.from <= starts[t] {
            return t;
        }
    }
    settings.len()
}

// The starts with window start ≤ S < window end: only the intervals that begin inside the window are looked at.
fn starts_in(w: StartWindow, on0: u32, settings: &[SettingRow], starts: &[u32]) -> u32
    requires { Timed settings.now starts.now }
    ensures { result ≡ starts_at w on0 settings.now starts.now }
{
    let mut counted = 0;
    for t in ahead_of(w, on0, settings, starts)..settings.len() {
        if w.until <= starts[t] {
            return counted;
        }
        counted += started_at(on0, settings, t);
    }
    counted
}

// The starts of the day.
pub fn all_starts(on0: u32, settings: &[SettingRow]) -> u32
    requires { length settings.now ≤ most_intervals }
    ensures { result ≡ all_starts on0 settings.now }
{
    let mut sum = 0;
    for t in 0..settings.len() {
        sum += started_at(on0, settings, t);
    }
    sum
}

// Rule 20 of a window; its starts are counted only where those of the day are too many for it.
pub fn window_kept(
    w: StartWindow,
    all: u32,
    on0: u32,
    settings: &[SettingRow],
    starts: &[u32],
) -> bool
    requires { (all ≡ all_starts on0 settings.now) × Timed settings.now starts.now }
    ensures { result ≡ leb (starts_at w on0 settings.now starts.now) w.most }
{
    if all <= w.most {
        return true;
    }
    starts_in(w, on0, settings, starts) <= w.most
}
