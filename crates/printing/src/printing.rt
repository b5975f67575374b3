// The answer line, each digit put where it stays.
ghost use Rattle.std.specs.Prelude.{[], ◌∷◌, ◌++◌, ◌≡◌, ◌%◌};
ghost use Rattle.text.specs.Digits.{digit_of, digits_of};
ghost use Rattle.text.specs.Newlines.{newline};
ghost use Rattle.text.specs.AnswerLine.{answer_line, bytes_put, printed};

use events::Answer;
use text::NEWLINE;
use text::answer_line::*;

// Where fields begin in the line's second part, which begins with the signals.
const STATUS_IN: usize = STATUS_AT - SIGNALS_AT;

const CYCLES_IN: usize = CYCLES_AT - SIGNALS_AT;

const DATUM_IN: usize = DATUM_AT - SIGNALS_AT;

const NEWLINE_IN: usize = NEWLINE_AT - SIGNALS_AT;

// How long that part is.
const CYCLE_LENGTH: usize = ANSWER_LENGTH - SIGNALS_AT;

// At the front of a place that is long enough; a shorter one is left alone. The bytes put.
pub fn put_answer(answer: Answer, out: &mut [u8]) -> usize
    ensures put { result ≡ bytes_put out.old }
    ensures left { out.new ≡ printed answer out.old }
{
    let Some(line) = out.first_chunk_mut() else {
        return 0;
    };
    put_line(answer, line);
    ANSWER_LENGTH
}

fn put_line(answer: Answer, line: &mut [u8; ANSWER_LENGTH])
    ensures { line.new ≡ answer_line answer }
{
    let (numbers, rest) = line.split_first_chunk_mut().unwrap();
    put_numbers(
        numbers,
        answer.refusal,
        answer.phase,
        answer.granted,
        answer.lines,
    );
    put_cycle(
        rest.as_mut_array().unwrap(),
        answer.signals,
        answer.status,
        answer.cycles,
        answer.datum,
    );
}

// The letters come 7 bytes after the digit 9.
pub fn digit(n: u8) -> u8
    ensures { result ≡ digit_of (n % 16) }
{
    n % 16 + 0x30 + n % 16 / 10 * 7
}

// Four numbers of two digits each: the answer line begins with how the bus stands, and all of an outcome line but its newline is four of them.
// It is lent the part that they fill, and each of its bytes is stored here.
pub fn put_numbers(part: &mut [u8; 8], first: u8, second: u8, third: u8, fourth: u8)
    ensures { part.new ≡ digits_of 2 first ++ digits_of 2 second ++ digits_of 2 third ++ digits_of 2 fourth }
{
    part[0] = digit(first / 16);
    part[1] = digit(first);
    part[2] = digit(second / 16);
    part[3] = digit(second);
    part[4] = digit(third / 16);
    part[5] = digit(third);
    part[6] = digit(fourth / 16);
    part[7] = digit(fourth);
}

// The rest of the answer line: what was on the bus besides, and the newline.
fn put_cycle(part: &mut [u8; CYCLE_LENGTH], signals: u8, status: u8, cycles: u8, datum: u16)
    ensures { part.new ≡ digits_of 2 signals ++ digits_of 2 status ++ digits_of 2 cycles ++ digits_of 4 datum ++ newline ∷ [] }
{
    // Kept: a datum's halves by division, since no array is held where digits are put, and `to_be_bytes` gives one.
    let high = (datum / 256) as u8;
    let low = (datum % 256) as u8;
    part[0] = digit(signals / 16);
    part[1] = digit(signals);
    part[STATUS_IN] = digit(status / 16);
    part[STATUS_IN + 1] = digit(status);
    part[CYCLES_IN] = digit(cycles / 16);
    part[CYCLES_IN + 1] = digit(cycles);
    part[DATUM_IN] = digit(high / 16);
    part[DATUM_IN + 1] = digit(high);
    part[DATUM_IN + 2] = digit(low / 16);
    part[DATUM_IN + 3] = digit(low);
    part[NEWLINE_IN] = NEWLINE;
}
