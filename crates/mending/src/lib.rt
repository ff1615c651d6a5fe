// What mending a plan answers; no code. The definition and what it promises stand in specs/.
#![tactic(auto)]

use layouts::Fault;
use model::Subject;

// "Answer: the interval, device and new online power", interval and device from 1; "the answer says none"; "A plan already accepted is answered with its surplus, a message
// refused in reading with its fault".
#[derive(Clone, Copy)]
pub enum Mending {
    Accepted(i64),
    Mended(u64, u64, u64),
    Nothing,
    Refused(Subject, Fault),
}
