// A plan's setting of every edition, read into its row: by whole words where these answer, else field by field.
#![tactic(auto)]

ghost use Rattle.std.specs.Prelude.{◌≡◌, ◌<◌, length};
ghost use Rattle.setting_store.specs.Stored.{setting_by, neutral, ReactiveStored, SettingStored};

use kilowatts::Kw;
use layouts::{Fault, Place};
use reactive_reader::{NEUTRAL, REACTIVE_BITS, SINCE, quick_reactive, read_three};
use row_places::{Reserves, Setting, SettingRow};
use setting_reader::read_setting;
use setting_rows::{put_reactive, put_setting};
use setting_words::{ACTIVE_BITS, Active, quick_active};

// What stands in a row whose setting was refused.
const NO_SETTING: Setting = Setting {
    on: 0,
    online: Kw(0),
    reserves: Reserves {
        rgu: Kw(0),
        rgd: Kw(0),
        scr: Kw(0),
        nsc: Kw(0),
        rruon: Kw(0),
        rruoff: Kw(0),
        rrdon: Kw(0),
        rrdoff: Kw(0),
    },
    reactive: NEUTRAL,
};

// The reactive figures at p into row k, which has the others.
fn store_reactive(s: &[u8], p: Place, settings: &mut [SettingRow], k: usize) -> Result<Place, Fault>
    requires { k < length settings.old }
    ensures { ReactiveStored k s.now p settings.old settings.new result }
{
    if let Some(reactive) = quick_reactive(s, p.at) {
        put_reactive(settings, k, reactive);
        return Ok(Place {
            at: p.at + REACTIVE_BITS,
            ..p
        });
    }
    match read_three(s, p) {
        Ok((reactive, past)) => {
            put_reactive(settings, k, reactive);
            Ok(past)
        }
        Err(f) => {
            put_reactive(settings, k, NEUTRAL);
            Err(f)
        }
    }
}

// The figures that every edition has, and no reactive ones.
fn plain(active: Active) -> Setting
    ensures { result ≡ setting_by active neutral }
{
    Setting {
        on: active.on,
        online: active.online,
        reserves: active.reserves,
        reactive: NEUTRAL,
    }
}

// A setting of an edition at p into row k. After a refusal the row holds some setting.
pub fn store_setting(
    s: &[u8],
    p: Place,
    edition: u32,
    settings: &mut [SettingRow],
    k: usize,
) -> Result<Place, Fault>
    requires { k < length settings.old }
    ensures { SettingStored edition k s.now p settings.old settings.new result }
{
    if let Some(active) = quick_active(s, p.at) {
        put_setting(settings, k, plain(active));
        let next = Place {
            at: p.at + ACTIVE_BITS,
            ..p
        };
        if edition < SINCE {
            return Ok(next);
        }
        return store_reactive(s, next, settings, k);
    }
    match read_setting(s, p, edition) {
        Ok((setting, past)) => {
            put_setting(settings, k, setting);
            Ok(past)
        }
        Err(f) => {
            put_setting(settings, k, NO_SETTING);
            Err(f)
        }
    }
}
