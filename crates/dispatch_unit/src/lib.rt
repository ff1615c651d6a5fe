// A dispatch for hosts in other languages, of a list of offers that stands in an array. Nothing is required of the caller.
#![tactic(auto)]

ghost use Rattle.dispatch_tellings.specs.Hosts.{Tells};

use dispatch_core::dispatch_held;
use dispatch_tellings::{Finished, tell_dispatch};
use offers::Offer;
use tellings::store;

// The word and the figures of a dispatch, and the offers as they are left; 5, with nothing done, where `figures` has fewer than four places.
pub fn dispatch_told(
    case: &[u8],
    interval: u64,
    sets: &[u64],
    powers: &mut [u64],
    all: [Offer; 256],
    count: usize,
    target: u64,
    figures: &mut [u64],
) -> Finished
    ensures { Tells case.now interval sets.now powers.old powers.new all count target figures.old figures.new result }
{
    if figures.len() < 4 {
        return Finished {
            word: 5,
            offers: all,
        };
    }
    let held = dispatch_held(case, interval, sets, powers, all, count, target);
    let answer = held.answer;
    let left = held.offers;
    let told = tell_dispatch(answer);
    let word = told.word;
    store(figures, told);
    Finished {
        word: word,
        offers: left,
    }
}
