// What the readers of a completion and of the market's copy answer. Everything else here is definitions and theorems.
#![tactic(auto)]

use layouts::Fault;

// So many figures in the lent table; the case or the message is refused; or the table is too short, and so many numbers are needed.
#[derive(Clone, Copy)]
pub enum Reading {
    Figures(u64),
    RefusedCase(Fault),
    RefusedMessage(Fault),
    Short(u64),
}
