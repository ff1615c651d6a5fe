// An online power into the row of its setting; the row's other figures stay.
#![tactic(auto)]

ghost use Rattle.std.specs.Prelude.{◌≡◌, [], ◌<◌, get_or, length, set};
ghost use Rattle.online_rows.specs.Plans.{with_online_row};

use kilowatts::Kw;
use row_places::SettingRow;

// A row with this online power. Made anew, so that its length is known.
fn online_row(r: SettingRow, x: Kw) -> SettingRow
    ensures { result ≡ with_online_row r x.0 }
{
    [
        r[0], x.0, r[2], r[3], r[4], r[5], r[6], r[7], r[8], r[9], r[10], r[11], r[12], r[13],
    ]
}

// The online power of row k, put in place.
pub fn put_online(settings: &mut [SettingRow], k: usize, x: Kw)
    requires { k < length settings.old }
    ensures { settings.new ≡ set settings.old k (with_online_row (get_or settings.old k []) x.0) }
{
    let row = settings[k];
    settings[k] = online_row(row, x);
}
