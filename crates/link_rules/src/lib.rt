// Rule 27: −limit ≤ flow ≤ limit, of the link between the bars. Signed figures are kept from 0, so that both sides of a comparison are naturals.
#![tactic(auto)]

ghost use Rattle.std.specs.Prelude.{◌≡◌, true, ◌↔◌, ◌*◌, ◌≤◌, length};
ghost use Rattle.kilovars.specs.Reactive.{kvar_offset};
ghost use Rattle.link_rules.specs.Link.{within, link_kept, LinkRow, LinkRows, KeptTo};

use device_rows::limit_at;
use kilowatts::{Kw, NO_KW, SignedKw};
use row_places::{DeviceRow, SettingRow};
use setting_rows::flow_at;

fn flow_within(flow: SignedKw, limit: Kw) -> bool
    requires { (flow.0 ≤ 2 * kvar_offset) × (limit.0 ≤ kvar_offset) }
    ensures { result ≡ within flow.0 limit.0 }
{
    flow.0 <= NO_KW.0 + limit.0 && NO_KW.0 <= flow.0 + limit.0
}

// Whether the rule holds in interval t.
pub fn link_kept(devices: &[DeviceRow], settings: &[SettingRow], t: usize) -> bool
    requires { LinkRow devices.now settings.now t }
    ensures { result ≡ link_kept devices.now settings.now t }
{
    let flow = flow_at(settings, t);
    let limit = limit_at(devices);
    flow_within(flow, limit)
}

// Whether it holds in every interval.
pub fn link_held(halves: &[u32], devices: &[DeviceRow], settings: &[SettingRow]) -> bool
    requires { LinkRows (length halves.now) devices.now settings.now }
    ensures { (result ≡ true) ↔ KeptTo devices.now settings.now (length halves.now) }
{
    for t in 0..halves.len() {
        if !link_kept(devices, settings, t) {
            return false;
        }
    }
    true
}
