// The host library's reader of a case: how many rows its tables have; and what inspecting a case finds.
#![tactic(auto)]

use case_sizes::{SMALL_DEVICES, SMALL_INTERVALS};

// The largest counts that the host library takes, and the rows that its tables need.
pub const DEVICES: usize = 64;

pub const INTERVALS: usize = 96;

pub const ZONES: usize = 4;

pub const CELLS: usize = DEVICES * INTERVALS;

pub const MINIMA: usize = ZONES * INTERVALS;

pub const TIMES: usize = INTERVALS + 1;

// The rows that tables for a small case need.
pub const SMALL_CELLS: usize = SMALL_DEVICES * SMALL_INTERVALS;

pub const SMALL_MINIMA: usize = ZONES * SMALL_INTERVALS;

pub const SMALL_TIMES: usize = SMALL_INTERVALS + 1;
