// The lines of a picture, each digit put where it stays.
ghost use Rattle.std.specs.Prelude.{[], ◌∷◌, ◌≡◌, length};
ghost use Rattle.std.proofs.lemmas.List.Edits.{sets};
ghost use Rattle.pins.specs.Moments.{even_moment, odd_moment, cycle_moments};
ghost use Rattle.pins.specs.Picture.{picture_of, picture_line, lines_for, picture_length, pictures_of, pictured, bytes_pictured};

use crate::driven::put_driven;
use crate::levels::put_levels;
use crate::moments::*;
use crate::still::*;
use bus::numbers::ACCEPTED;
use events::Answer;
use judgement::Event;
use phases::Kind;
use pins::sizes::*;
use text::NEWLINE;

// At the front of a place that has room for the most lines; a shorter one is left alone. The bytes put.
pub fn put_pictures(event: Event, answer: Answer, out: &mut [u8]) -> usize
    ensures put { result ≡ bytes_pictured event answer out.old }
    ensures left { out.new ≡ pictured event answer out.old }
{
    let Some(lines) = out.first_chunk_mut() else {
        return 0;
    };
    put_accepted(event, answer, lines)
}

// A refused event has no picture.
fn put_accepted(event: Event, answer: Answer, lines: &mut [u8; MOST_PICTURED]) -> usize
    ensures put { result ≡ length (pictures_of event answer) }
    ensures left { lines.new ≡ sets lines.old 0 (pictures_of event answer) }
{
    if answer.refusal != ACCEPTED {
        return 0;
    }
    match Kind::try_from(event.kind) {
        Ok(kind) if kind.is_cycle() => put_cycle_lines(
            Cycle {
                kind,
                event,
                answer,
            },
            lines,
        ),
        _ => put_one(idle_moment(event, answer), lines),
    }
}

fn put_cycle_lines(cycle: Cycle, lines: &mut [u8; MOST_PICTURED]) -> usize
    ensures put { result ≡ length (lines_for (cycle_moments cycle.event cycle.answer)) }
    ensures left { lines.new ≡ sets lines.old 0 (lines_for (cycle_moments cycle.event cycle.answer)) }
{
    if !cycle.kind.is_word() {
        put_one(cycle.byte(), lines)
    } else if cycle.answer.cycles == 2 {
        put_split(cycle, lines)
    } else {
        put_one(cycle.word(), lines)
    }
}

// The even address, and behind it the odd one.
fn put_split(cycle: Cycle, lines: &mut [u8; MOST_PICTURED]) -> usize
    ensures put { result ≡ length (lines_for (even_moment cycle.event cycle.answer ∷ odd_moment cycle.event cycle.answer ∷ [])) }
    ensures left { lines.new ≡ sets lines.old 0 (lines_for (even_moment cycle.event cycle.answer ∷ odd_moment cycle.event cycle.answer ∷ [])) }
{
    let (first, rest) = lines.split_first_chunk_mut().unwrap();
    let second = rest.as_mut_array().unwrap();
    put_line(cycle.even(), first);
    put_line(cycle.odd(), second);
    MOST_PICTURED
}

fn put_one(quiet: Quiet, lines: &mut [u8; MOST_PICTURED]) -> usize
    ensures put { result ≡ picture_length }
    ensures left { lines.new ≡ sets lines.old 0 (picture_line quiet.moment) }
{
    put_line(quiet, lines.first_chunk_mut().unwrap());
    PICTURE_LENGTH
}

fn put_line(quiet: Quiet, line: &mut [u8; PICTURE_LENGTH])
    ensures { line.new ≡ picture_line quiet.moment }
{
    let (digits, rest) = line.split_first_chunk_mut().unwrap();
    put_pins(quiet, digits);
    rest[0] = NEWLINE;
}

// An event that is no cycle is put with less work.
fn put_pins(quiet: Quiet, digits: &mut [u8; PICTURE_DIGITS])
    ensures { digits.new ≡ picture_of quiet.moment }
{
    let m = quiet.moment;
    if m.cyclic {
        let (levels, rest) = digits.split_first_chunk_mut().unwrap();
        put_levels(quiet, levels);
        put_driven(m, rest.as_mut_array().unwrap());
    } else {
        put_still(m, digits);
    }
}
