// What is answered to an event.
ghost use Rattle.std.specs.Prelude.{◌≡◌};
ghost use Rattle.bus.specs.Refusal.{accepted};
ghost use Rattle.memory.specs.Told.{moved_in};
ghost use Rattle.events.specs.Answers.{answer_with, signals_with, word_signals, bare_with};

use bus::Bus;
use bus::numbers::ACCEPTED;
use events::Answer;
use memory::{Moved, Slave};
use phases::Kind;
use phases::numbers::{S_XTRQ, SIXTN};
use tables::signals;

// What the bus shows, and beside it what a cycle had on it.
// Kept: a refusal's number here and in `bare_with`, 0 for none, as the answer has it (`answer_with`).
pub fn answer_with(refusal: u8, bus: Bus, signals: u8, status: u8, cycles: u8, datum: u16) -> Answer
    ensures { result ≡ answer_with refusal bus signals status (record { datum = datum; cycles = cycles }) }
{
    Answer {
        refusal,
        phase: bus.phase,
        granted: bus.granted,
        lines: bus.lines(),
        signals,
        status,
        cycles,
        datum,
    }
}

// What a step that was taken is answered, with what it moved.
pub fn accepted_with(bus: Bus, signals: u8, status: u8, moved: Option<Moved>) -> Answer
    ensures { result ≡ answer_with accepted bus signals status (moved_in moved) }
{
    match moved {
        Some(moved) => answer_with(ACCEPTED, bus, signals, status, moved.cycles, moved.datum),
        None => answer_with(ACCEPTED, bus, signals, status, 0, 0),
    }
}

// The phase's signals, with those of a word.
#[tactic(auto, using(events::proofs::SignalLaws::signals_fit))]
pub fn signals_with(phase: u8, kind: u8, slave: Slave) -> u8
    ensures { result ≡ signals_with phase kind slave }
{
    signals(phase) + word_signals(kind, slave)
}

// sXTRQ, and SIXTN where the slave asserts it.
#[tactic(auto, unfolding(events::specs::Answers::word_signals))]
fn word_signals(kind: u8, slave: Slave) -> u8
    ensures { result ≡ word_signals kind slave }
{
    match Kind::try_from(kind) {
        Ok(kind) if kind.is_word() && slave.asserts_sixtn() => S_XTRQ + SIXTN,
        Ok(kind) if kind.is_word() => S_XTRQ,
        _ => 0,
    }
}

// A number with nothing but a datum behind it.
pub fn bare_with(refusal: u8, datum: u16) -> Answer
    ensures { result ≡ bare_with refusal datum }
{
    Answer {
        refusal,
        datum,
        ..Answer::default()
    }
}
