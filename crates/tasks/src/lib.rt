// What hosts in other languages ask of a case, and of a message with it.
#![tactic(auto)]

#[derive(Clone, Copy)]
pub enum Task {
    Inspect,
    Judge,
    Breaches,
    WriteCase,
    WritePlan,
    Copy,
    ReadCompletion,
    ReadMarket,
    Mend,
    Batch,
}
