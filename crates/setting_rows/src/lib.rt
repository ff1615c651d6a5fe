// A plan's figures for a device in one interval from their row, and into it; its starts and stops.
#![tactic(auto)]

ghost use Rattle.std.specs.Prelude.{◌≡◌, [], ◌<◌, ltb, get_or, length, set};
ghost use Rattle.numbers.specs.Base.{bit};
ghost use Rattle.row_places.specs.Figures.{setting_row, setting_of, on_at, online_at, on_before, started_at, stopped_at, reactive_at, flow_at, with_flow};
ghost use Rattle.setting_rows.specs.Put.{with_reactive};

use kilovars::{Kvar, SignedKvar};
use kilowatts::{Kw, NO_KW, SignedKw};
use row_places::{
    Reactive, Reserves, SETTING_FLOW, SETTING_NSC, SETTING_ON, SETTING_ONLINE, SETTING_Q,
    SETTING_QRD, SETTING_QRU, SETTING_RGD, SETTING_RGU, SETTING_RRD_OFF, SETTING_RRD_ON,
    SETTING_RRU_OFF, SETTING_RRU_ON, SETTING_SCR, Setting, SettingRow,
};

pub fn setting_at(settings: &[SettingRow], k: usize) -> Setting
    requires { k < length settings.now }
    ensures { result ≡ setting_of (get_or settings.now k []) }
{
    let r = settings[k];
    let reserves = Reserves {
        rgu: Kw(r[SETTING_RGU]),
        rgd: Kw(r[SETTING_RGD]),
        scr: Kw(r[SETTING_SCR]),
        nsc: Kw(r[SETTING_NSC]),
        rruon: Kw(r[SETTING_RRU_ON]),
        rruoff: Kw(r[SETTING_RRU_OFF]),
        rrdon: Kw(r[SETTING_RRD_ON]),
        rrdoff: Kw(r[SETTING_RRD_OFF]),
    };
    let reactive = Reactive {
        q: SignedKvar(r[SETTING_Q]),
        qru: Kvar(r[SETTING_QRU]),
        qrd: Kvar(r[SETTING_QRD]),
    };
    Setting {
        on: r[SETTING_ON],
        online: Kw(r[SETTING_ONLINE]),
        reserves,
        reactive,
    }
}

pub fn online_at(settings: &[SettingRow], k: usize) -> Kw
    requires { k < length settings.now }
    ensures { result.0 ≡ online_at settings.now k }
{
    Kw(settings[k][SETTING_ONLINE])
}

// Its reactive power and the two reserves.
pub fn reactive_at(settings: &[SettingRow], k: usize) -> Reactive
    requires { k < length settings.now }
    ensures { result ≡ reactive_at settings.now k }
{
    Reactive {
        q: SignedKvar(settings[k][SETTING_Q]),
        qru: Kvar(settings[k][SETTING_QRU]),
        qrd: Kvar(settings[k][SETTING_QRD]),
    }
}

// The flow of interval t, which stands in the first device's row.
pub fn flow_at(settings: &[SettingRow], t: usize) -> SignedKw
    requires { t < length settings.now }
    ensures { result.0 ≡ flow_at settings.now t }
{
    SignedKw(settings[t][SETTING_FLOW])
}

// "u = on (1/0)"
pub fn on_at(settings: &[SettingRow], k: usize) -> u32
    requires { k < length settings.now }
    ensures { result ≡ on_at settings.now k }
{
    settings[k][SETTING_ON]
}

// "before interval 1 the initial state stands", in a device's part of the settings
pub fn on_before(on0: u32, settings: &[SettingRow], t: usize) -> u32
    requires { t < length settings.now }
    ensures { result ≡ on_before on0 settings.now t }
{
    if t == 0 { on0 } else { on_at(settings, t - 1) }
}

// 1 where the second is above the first.
fn rises(a: u32, b: u32) -> u32
    ensures { result ≡ bit (ltb a b) }
{
    if a < b { 1 } else { 0 }
}

// "su = 1 where u rises"
pub fn started_at(on0: u32, settings: &[SettingRow], t: usize) -> u32
    requires { t < length settings.now }
    ensures { result ≡ started_at on0 settings.now t }
{
    let before = on_before(on0, settings, t);
    let on = on_at(settings, t);
    rises(before, on)
}

// "sd = 1 where it falls"
pub fn stopped_at(on0: u32, settings: &[SettingRow], t: usize) -> u32
    requires { t < length settings.now }
    ensures { result ≡ stopped_at on0 settings.now t }
{
    let before = on_before(on0, settings, t);
    let on = on_at(settings, t);
    rises(on, before)
}

fn setting_row(x: Setting) -> SettingRow
    ensures { result ≡ setting_row x }
{
    let reserves = x.reserves;
    let reactive = x.reactive;
    [
        x.on,
        x.online.0,
        reserves.rgu.0,
        reserves.rgd.0,
        reserves.scr.0,
        reserves.nsc.0,
        reserves.rruon.0,
        reserves.rruoff.0,
        reserves.rrdon.0,
        reserves.rrdoff.0,
        reactive.q.0,
        reactive.qru.0,
        reactive.qrd.0,
        NO_KW.0,
    ]
}

// A setting into row k.
pub fn put_setting(settings: &mut [SettingRow], k: usize, x: Setting)
    requires { k < length settings.old }
    ensures { settings.new ≡ set settings.old k (setting_row x) }
{
    settings[k] = setting_row(x);
}

// The reactive figures into row k; the row's other figures stay.
pub fn put_reactive(settings: &mut [SettingRow], k: usize, x: Reactive)
    requires { k < length settings.old }
    ensures { settings.new ≡ set settings.old k (with_reactive (get_or settings.old k []) x) }
{
    let mut row = settings[k];
    row[SETTING_Q] = x.q.0;
    row[SETTING_QRU] = x.qru.0;
    row[SETTING_QRD] = x.qrd.0;
    settings[k] = row;
}

// The flow of interval t into the first device's row; the row's other figures stay.
pub fn put_flow(settings: &mut [SettingRow], t: usize, x: SignedKw)
    requires { t < length settings.old }
    ensures { settings.new ≡ set settings.old t (with_flow (get_or settings.old t []) x.0) }
{
    let mut row = settings[t];
    row[SETTING_FLOW] = x.0;
    settings[t] = row;
}
