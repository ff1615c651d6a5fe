// A batch of plans as hosts in other languages are told of it: a word and four numbers.
#![tactic(auto)]

ghost use Rattle.std.specs.Prelude.{◌≡◌};
ghost use Rattle.stack_tellings.specs.Told.{table_bytes, told_stack};

use layouts::Fault;
use model::{Subject, Verdict};
use stacks::Stacking;
use tellings::{Told, tell};

// The bytes of each number of a table, and the largest count of bytes that is told.
const NUMBER_BYTES: u64 = 8;

const MOST: u64 = 18_446_744_073_709_551_615;

// The bytes of so many numbers.
fn table_bytes(numbers: u64) -> u64
    ensures { result ≡ table_bytes numbers }
{
    if MOST / NUMBER_BYTES < numbers {
        return MOST;
    }
    NUMBER_BYTES * numbers
}

// A batch that was judged.
pub fn tell_stack(x: Stacking) -> Told
    ensures { result ≡ told_stack x }
{
    match x {
        Stacking::Judged(count, bytes) => Told {
            word: 0,
            first: count,
            second: bytes,
            third: 0,
            fourth: 0,
        },
        Stacking::RefusedCase(f) => tell(Verdict::Refused(Subject::Case, f)),
        Stacking::RefusedBatch(f) => tell(Verdict::Refused(Subject::Plan, f)),
        Stacking::Short(numbers) => {
            let needed = table_bytes(numbers);
            tell(Verdict::Refused(Subject::Result, Fault::TooShort(needed)))
        }
    }
}
