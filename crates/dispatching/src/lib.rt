// The cheapest dispatch of one interval: its definitions and its promise. No code but the answer's type.
#![tactic(auto)]

use layouts::Fault;

// What asking for a dispatch answers: the powers are written; the case's fault; 8, the interval, sets, powers or offers do not fit the case; 9, no such
// powers exist, with the target.
#[derive(Clone, Copy)]
pub enum Dispatch {
    Dispatched,
    Refused(Fault),
    Unfit,
    Unmet(u64),
}
