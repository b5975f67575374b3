// Pictures of the pins: written for an accepted event, and read again.
ghost use Rattle.std.specs.Prelude.{◌≡◌};
ghost use Rattle.s100_c.specs.Pictures.{picture_answers, picture_leaves, read_answers, read_leaves};

use crate::answer_layout::answer_in;
use bus::Refusal;
use bus::numbers::ACCEPTED;
use judgement::Event;
use picturing::put_pictures;
use pins::sizes::MOST_PICTURED;
use reading::picture_line;

// Where no phase has the signals.
// Kept: a number, which is what the C interface answers.
const NO_PHASE: u8 = 0xFF;

#[unsafe(no_mangle)]
pub extern "C" fn s100_picture(kind: u8, address: u32, answer: &[u8], lines: &mut [u8]) -> u8
    ensures answers { result ≡ picture_answers kind address answer.now lines.old }
    ensures leaves { lines.new ≡ picture_leaves kind address answer.now lines.old }
{
    let Some(answer) = answer.as_array() else {
        return u8::from(Refusal::WrongLength);
    };
    let Some(lines) = lines.as_mut_array::<MOST_PICTURED>() else {
        return u8::from(Refusal::WrongLength);
    };
    let event = Event {
        kind,
        speaker: 0,
        address,
        datum: 0,
    };
    put_pictures(event, answer_in(answer), lines) as u8
}

#[unsafe(no_mangle)]
pub extern "C" fn s100_read_picture(line: &[u8], seen: &mut [u8]) -> u8
    ensures answers { result ≡ read_answers line.now seen.old }
    ensures leaves { seen.new ≡ read_leaves line.now seen.old }
{
    let Some(seen) = seen.as_mut_array() else {
        return u8::from(Refusal::WrongLength);
    };
    match picture_line(line) {
        Ok(read) => {
            *seen = [
                read.phase.map_or(NO_PHASE, u8::from),
                read.signals,
                read.lines,
                0,
            ];
            ACCEPTED
        }
        Err(fault) => {
            *seen = [0, 0, 0, fault.column()];
            u8::from(Refusal::from(fault))
        }
    }
}
