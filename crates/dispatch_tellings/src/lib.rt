// A dispatch as hosts in other languages are told of it: a word, four numbers, and the offers as they are left.
#![tactic(auto)]

ghost use Rattle.std.specs.Prelude.{◌≡◌};
ghost use Rattle.dispatch_tellings.specs.Hosts.{told_dispatch};

use dispatching::Dispatch;
use offers::Offer;
use tellings::Told;

// Words: a refused case; nothing was dispatched.
const CASE: u64 = 2;

const NOT_DISPATCHED: u64 = 7;

// The word, and the offers as they are left: the host's list goes by an array.
#[derive(Clone, Copy)]
pub struct Finished {
    pub word: u64,
    pub offers: [Offer; 256],
}

// The offers that are left.
pub fn offers_of(done: Finished) -> [Offer; 256]
    ensures { result ≡ done.offers }
{
    done.offers
}

// The word.
pub fn word_of(done: Finished) -> u64
    ensures { result ≡ done.word }
{
    done.word
}

// A dispatch.
pub fn tell_dispatch(x: Dispatch) -> Told
    ensures { result ≡ told_dispatch x }
{
    match x {
        Dispatch::Dispatched => Told {
            word: 0,
            first: 0,
            second: 0,
            third: 0,
            fourth: 0,
        },
        Dispatch::Refused(f) => {
            let number = layouts::number_of(f);
            let returned = layouts::returned_by(f);
            Told {
                word: CASE,
                first: number,
                second: returned,
                third: 0,
                fourth: 0,
            }
        }
        Dispatch::Unfit => Told {
            word: NOT_DISPATCHED,
            first: 8,
            second: 0,
            third: 0,
            fourth: 0,
        },
        Dispatch::Unmet(target) => Told {
            word: NOT_DISPATCHED,
            first: 9,
            second: target,
            third: 0,
            fourth: 0,
        },
    }
}
