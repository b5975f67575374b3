// The priority lines of a bus: what they show, and whether they are settled.
ghost use Rattle.std.specs.Prelude.{◌≡◌};
ghost use Rattle.bus.specs.State.{lines_of, is_settled};

use crate::state::Bus;
use cards::{counted, stays};

impl Bus {
    // What the priority lines show. No card beyond the highest contender is asked.
    pub fn lines(self) -> u8
        ensures { result ≡ lines_of self }
    {
        let mut lines = 0;
        // The contenders from card n on, card n as card 0.
        let mut left = self.contenders;
        for &level in &self.driven {
            if left == 0 {
                break;
            }
            lines |= counted(left, 0, level);
            left >>= 1;
        }
        lines
    }

    // Whoever contends would go on driving the same after a look. All are asked, without a branch on what is found, so that they are asked at once.
    pub fn is_settled(self) -> bool
        ensures { result ≡ is_settled self }
    {
        let lines = self.lines();
        (0..16)
            .zip(&self.driven)
            .fold(true, |settled, (n, &level)| {
                settled & stays(self.contenders, n, level, lines)
            })
    }
}
