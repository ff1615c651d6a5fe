// S of each interval, and the last E.
#![tactic(auto)]

ghost use Rattle.std.specs.Prelude.{◌≡◌, ◌+◌, ◌*◌, ◌<◌, length};
ghost use Rattle.clock.specs.Times.{Halves, Times};

// S of each interval and the last E.
pub fn start_times(halves: &[u32], starts: &mut [u32])
    requires { Halves halves.now × (length starts.old ≡ length halves.now + 1) }
    ensures { Times halves.now starts.new }
{
    starts[0] = 0;
    let mut at = 0u32;
    for (t, &half) in halves.iter().enumerate() {
        at += 2 * half;
        starts[t + 1] = at;
    }
}
