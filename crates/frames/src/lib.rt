// How much of a batch is read at a time: a frame, which is a message behind its length, as far as the batch goes.
#![tactic(auto)]

ghost use Rattle.std.specs.Prelude.{◌≡◌, ◌≤◌};
ghost use Rattle.frames.specs.Frames.{frame_bytes, frame_room};

// The most bytes of a message, and those of the length ahead of it.
pub const LIMIT: u64 = 65536;

const HEAD: usize = 3;

// How many bytes a frame has, by the first of them.
pub fn frame_bytes(head: &[u8]) -> usize
    ensures { (result ≡ frame_bytes head.now) × (result ≤ frame_room) }
{
    let here = head.len();
    if here < HEAD {
        return here;
    }
    let n = bits::bits_at(head, 0, 24);
    if LIMIT < n {
        return HEAD;
    }
    HEAD + n as usize
}
