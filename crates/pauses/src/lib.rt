// A short sleep, for whoever waits on something that is not ready.
#![tactic(auto)]

use std::thread;
use std::time::{Clock, Duration};

// In milliseconds.
const PAUSE: u64 = 10;

// Sleeps ten milliseconds. It tells nothing.
pub fn pause(clock: &impl Clock) {
    thread::sleep(clock, Duration::from_millis(PAUSE))
}
