// What a text begins with, and the two kinds of line that are read.
ghost use Rattle.std.specs.Prelude.{◌≡◌, ◌<◌, eqb, length, get_or, take, MatchOption};
ghost use Rattle.std.specs.List.{position};
ghost use Rattle.text.specs.Faults.{leading_digits};
ghost use Rattle.text.specs.Newlines.{newline, first_line};
ghost use Rattle.text.specs.Frames.{event_digits, event_in, bad_line, line_in, next_line, setup_in, chassis_in, pages_in};
ghost use Rattle.text.specs.Told.{bad_line_told, line_told, next_line_told, setup_told};

use crate::digits::{Digits, wrong_behind};
use bus::Chassis;
use judgement::Event;
use std::array::from_fn;
use text::Fault;
use text::frames::*;

// How many bytes come before the first newline, None where there is none.
pub fn newline_at(text: &[u8]) -> Option<usize>
    ensures { result ≡ position (λ b. eqb b newline) text.now }
{
    text.iter().position(|b| *b == NEWLINE)
}

// How many bytes come before the first newline.
pub fn line_end(text: &[u8]) -> usize
    ensures { result ≡ length (first_line text.now) }
{
    newline_at(text).unwrap_or(text.len())
}

// None where the line isn't ended yet. An event line is seen by the newline at its place; without one there the line has another length.
pub fn next_line(text: &[u8]) -> Option<Result<Event, BadLine>>
    ensures { next_line_told result ≡ next_line text.now }
{
    match before_newline(text) {
        Some(line) => Some(closed_line(line)),
        None => {
            let size = newline_at(text)?;
            Some(Err(BadLine {
                size,
                fault: Fault::WrongLength,
            }))
        }
    }
}

// The fourteen bytes before a newline at its place.
fn before_newline(text: &[u8]) -> Option<&[u8; EVENT_DIGITS]>
    ensures { MatchOption result (event_digits < length text.now → get_or text.now event_digits 0 ≡ newline → ⊥)
        (λ line. (line.now ≡ take event_digits text.now) × (event_digits < length text.now) × (get_or text.now event_digits 0 ≡ newline)) }
{
    match text.split_first_chunk() {
        Some((line, [NEWLINE, ..])) => Some(line),
        _ => None,
    }
}

// The line in fourteen bytes with a newline behind them; another newline among them ends it there.
fn closed_line(line: &[u8; EVENT_DIGITS]) -> Result<Event, BadLine>
    ensures { line_told result ≡ line_in (first_line line.now) }
{
    match Digits::of(line) {
        Ok(digits) => Ok(event_in(digits)),
        Err(leading) => Err(bad_line(line, leading)),
    }
}

// Its end is looked for behind the digits that lead.
fn bad_line(line: &[u8; EVENT_DIGITS], leading: usize) -> BadLine
    requires is { leading ≡ leading_digits line.now }
    requires some { leading < event_digits }
    ensures { bad_line_told result ≡ bad_line (first_line line.now) }
{
    let size = leading + line_end(&line[leading..]);
    let fault = if size == EVENT_DIGITS {
        wrong_behind(leading)
    } else {
        Fault::WrongLength
    };
    BadLine { size, fault }
}

fn event_in(line: Digits<EVENT_DIGITS>) -> Event
    ensures { result ≡ event_in line.entry.line.now }
{
    Event {
        kind: line.two(KIND_AT),
        speaker: line.two(SPEAKER_AT),
        address: u32::from_be_bytes([
            0,
            line.two(ADDRESS_AT),
            line.two(ADDRESS_AT + 2),
            line.two(ADDRESS_AT + 4),
        ]),
        datum: line.four(DATUM_AT),
    }
}

pub fn setup_line(line: &[u8]) -> Result<Chassis, Fault>
    ensures { setup_told result ≡ setup_in line.now }
{
    let digits = Digits::read(line)?;
    Ok(chassis_in(digits))
}

fn chassis_in(line: Digits<SETUP_DIGITS>) -> Chassis
    ensures { result ≡ chassis_in line.entry.line.now }
{
    Chassis {
        fitted: line.four(FITTED_AT),
        pages: pages_in(line),
    }
}

fn pages_in(line: Digits<SETUP_DIGITS>) -> [u8; 16]
    ensures { result ≡ pages_in line.entry.line.now }
{
    from_fn(|page| line.value(PAGES_AT + page))
}
