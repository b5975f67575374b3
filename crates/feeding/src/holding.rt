// What is held of a text until more is read.
ghost use Rattle.std.specs.Prelude.{◌++◌, ◌≡◌, ◌≤◌, length, take, drop};
ghost use Rattle.text.specs.Reading.{held_of};

use reading::line_end;
use text::LONGEST;

// The most bytes that are held of a line that isn't ended: one more than the longest right line has.
const MOST_HELD: usize = LONGEST + 1;

// The bytes from one place to another go to the front, but a line that isn't ended is cut.
pub fn hold(text: &mut [u8], from: usize, filled: usize) -> usize
    requires from_le_filled { from ≤ filled }
    requires filled_in_bounds { filled ≤ length text.old }
    ensures held { result ≡ length (held_of (drop from (take filled text.old))) }
    ensures left { text.new ≡
        held_of (drop from (take filled text.old)) ++ drop (length (held_of (drop from (take filled text.old)))) text.old }
{
    let count = held_count(&text[from..filled]);
    text.copy_within(from..from + count, 0);
    count
}

fn held_count(rest: &[u8]) -> usize
    ensures { result ≡ length (held_of rest.now) }
{
    let size = rest.len();
    if line_end(rest) == size && MOST_HELD < size {
        MOST_HELD
    } else {
        size
    }
}
