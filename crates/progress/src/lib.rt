// How far a completion has come: its money so far, and the pen behind its last bit.
#![tactic(auto)]

use grains::Ledger;
use pen::Pen;

#[derive(Clone, Copy)]
pub struct Progress {
    pub money: Ledger,
    pub pen: Pen,
}
