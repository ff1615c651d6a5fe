// How many messages a batch has.
#![tactic(auto)]

ghost use Rattle.stack_counts.specs.Counts.{Counts};

use layouts::Framed;
use stacks::Counted;
use tellings::LONGEST;

// All of them, or the splitter's first refusal.
pub fn count_messages(batch: &[u8]) -> Counted
    ensures { Counts batch.now result }
{
    let mut at = 0;
    let mut count = 0;
    loop {
        match layouts::frame_at(batch, at, LONGEST) {
            Framed::End => return Counted::Messages(count),
            Framed::Refused(f) => return Counted::Refused(f),
            Framed::Message(_, until) => {
                at = until;
                count += 1;
            }
        }
    }
}
