// An offer of a set: one of its blocks. "Each with its set, block number (both from 1), cap, floor and price".
#![tactic(auto)]

#[repr(C)]
#[derive(Clone, Copy, PartialEq, Eq)]
pub struct Offer {
    pub set: u64,
    pub block: u64,
    pub cap: u64,
    pub floor: u64,
    pub price: i64,
}

impl Offer {
    // What an array holds where no offer is put.
    pub const NONE: Offer = Offer {
        set: 0,
        block: 0,
        cap: 0,
        floor: 0,
        price: 0,
    };
}
