// The market's copy of a completion: its fields, what it shows, and that it cannot tell a price. No code but the answer's type.
#![tactic(auto)]

use layouts::Fault;
use model::{Breach, Subject};

// What asking for the copy answers: how many bytes were written, the first broken rule, or a refusal as a verdict's. Nothing of it depends on a price.
#[derive(Clone, Copy)]
pub enum Copying {
    Copied(u64),
    Broken(Breach),
    Refused(Subject, Fault),
}
