// The outcome lines of the sixteen cards, each digit put where it stays.
ghost use Rattle.std.specs.Prelude.{◌≡◌};
ghost use Rattle.text.specs.OutcomeLine.{outcome_line, outcomes_put, outcome_bytes_put};

use crate::printing::put_numbers;
use bus::Bus;
use outcome::{Figures, outcome_for};
use text::NEWLINE;
use text::outcome_line::*;

// At the front of a place that is long enough; a shorter one is left alone. The bytes put.
pub fn put_outcomes(bus: Bus, out: &mut [u8]) -> usize
    ensures put { result ≡ outcome_bytes_put out.old }
    ensures left { out.new ≡ outcomes_put bus out.old }
{
    if out.len() < OUTCOMES_LENGTH {
        return 0;
    }
    for card in 0..16u8 {
        let figures = Figures::of(card, outcome_for(bus, card));
        let (_, rest) = out.split_at_mut(usize::from(card) * OUTCOME_LENGTH);
        let (line, _) = rest.split_first_chunk_mut().unwrap();
        put_outcome(figures, line);
    }
    OUTCOMES_LENGTH
}

// It is lent the line's own bytes.
fn put_outcome(figures: Figures, line: &mut [u8; OUTCOME_LENGTH])
    ensures { line.new ≡ outcome_line figures }
{
    let (numbers, rest) = line.split_first_chunk_mut().unwrap();
    put_numbers(
        numbers,
        figures.answer,
        figures.card,
        figures.line,
        figures.rival,
    );
    rest[0] = NEWLINE;
}
