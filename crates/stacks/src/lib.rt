// What judging a batch of plans against one case answers. Everything else here is definitions and theorems.
#![tactic(auto)]

use layouts::Fault;

// How many messages a batch has, or its splitter's refusal.
#[derive(Clone, Copy)]
pub enum Counted {
    Messages(usize),
    Refused(Fault),
}

// So many plans judged, and so many bytes of completions written; the case or the batch is refused; or the table is too short, and so many numbers are needed.
#[derive(Clone, Copy)]
pub enum Stacking {
    Judged(u64, u64),
    RefusedCase(Fault),
    RefusedBatch(Fault),
    Short(u64),
}
