// A line of a picture, read again: what its pins tell of phase, signals and priority lines.
ghost use Rattle.std.specs.Prelude.{cond, ◌≡◌, ◌<◌, ◌≤◌, eqb};
ghost use Rattle.std.specs.List.{find};
ghost use Rattle.phases.specs.Phases.{number_of_phase};
ghost use Rattle.phases.specs.Signal.{signals_in};
ghost use Rattle.pins.specs.ReadAgain.{bit_from, true_on, signals_on, priority_lines_on, phase_with, picture_in};
ghost use Rattle.pins.specs.Told.{phase_told, picture_told};

use crate::digits::Digits;
use phases::Phase;
use phases::numbers::*;
use pins::Seen;
use pins::sizes::*;
use tables::signals;
use text::Fault;

// In their order.
const PHASES: [Phase; 6] = [
    Phase::Free,
    Phase::Arbitration,
    Phase::Granted,
    Phase::TransferOne,
    Phase::Owned,
    Phase::TransferTwo,
];

type Picture<'a> = Digits<'a, PICTURE_DIGITS>;

#[tactic(auto, unfolding(pins::specs::ReadAgain::picture_in))]
pub fn picture_line(line: &[u8]) -> Result<Seen, Fault>
    ensures { picture_told result ≡ picture_in line.now }
{
    let picture = Digits::read(line)?;
    let signals = signals_on(picture);
    Ok(Seen {
        phase: phase_with(signals),
        signals,
        lines: lines_on(picture),
    })
}

fn signals_on(picture: Picture) -> u8
    ensures { result ≡ signals_on picture.entry.line.now }
{
    weight_on(picture, 18, true, SDSB)
        + weight_on(picture, 19, true, CDSB)
        + weight_on(picture, 22, true, ADSB)
        + weight_on(picture, 23, true, DODSB)
        + weight_on(picture, 26, false, P_HLDA)
        + weight_on(picture, 58, true, S_XTRQ)
        + weight_on(picture, 60, true, SIXTN)
        + weight_on(picture, 74, true, HOLD)
}

// The priority lines, DMA3 first, as their pins come.
fn lines_on(picture: Picture) -> u8
    ensures { result ≡ priority_lines_on picture.entry.line.now }
{
    weight_on(picture, 14, true, 8)
        + weight_on(picture, 55, true, 1)
        + weight_on(picture, 56, true, 2)
        + weight_on(picture, 57, true, 4)
}

// The weight of the line on a pin, where it is true.
fn weight_on(picture: Picture, pin: usize, starred: bool, weight: u8) -> u8
    requires pin_nonzero { 0 < pin }
    requires pin_bound { pin ≤ 100 }
    ensures is { result ≡ cond (true_on picture.entry.line.now pin starred) weight 0 }
    ensures at_most { result ≤ weight }
{
    let driven = bit_from(picture, DRIVEN_AT, pin);
    let high = bit_from(picture, 0, pin);
    if driven & (high != starred) {
        weight
    } else {
        0
    }
}

fn bit_from(picture: Picture, at: usize, pin: usize) -> bool
    requires pin_nonzero { 0 < pin }
    requires pin_bound { pin ≤ 100 }
    requires at_bound { at ≤ 25 }
    ensures { result ≡ bit_from at picture.entry.line.now pin }
{
    let digit = picture.value(at + (pin - 1) / 4);
    (digit >> (3 - (pin - 1) % 4)) % 2 == 1
}

// Those of a word go by the cycle.
fn phase_with(signals: u8) -> Option<Phase>
    ensures { phase_told result ≡ phase_with signals }
{
    phase_where(signals % SIXTN)
}

fn phase_where(standing: u8) -> Option<Phase>
    ensures { result ≡ find (λ phase. eqb standing (signals_in (number_of_phase phase))) PHASES }
{
    PHASES
        .iter()
        .copied()
        .find(|phase| standing == signals(u8::from(*phase)))
}
