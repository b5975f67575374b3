// Why a card wins or loses, asked of a state.
ghost use Rattle.std.specs.Prelude.{◌≡◌, ◌<◌, unwrap_or, IfSome};
ghost use Rattle.bus.specs.State.{nobody};
ghost use Rattle.bus.specs.Told.{answered};
ghost use Rattle.outcome.specs.Losing.{no_line, line_lost, rival_at};
ghost use Rattle.outcome.specs.Outcomes.{outcome_refusal, settled_outcome, outcome_of};
ghost use Rattle.outcome.specs.Told.{outcome_in};

use crate::figures::{Loss, Outcome};
use bus::numbers::NOBODY;
use bus::{Bus, Refusal};
use cards::card_in;
use phases::Phase;
use sense::makes_sense;

// The state is only read.
#[tactic(auto, using(crate::proofs::ToldLaws::told_refused, crate::proofs::Refused::decided))]
pub fn outcome_for(bus: Bus, card: u8) -> Result<Outcome, Refusal>
    ensures { outcome_in result ≡ outcome_of bus card }
{
    check_asked(bus, card)?;
    Ok(settled_outcome(bus, card))
}

// Nothing is in the way of an answer.
#[tactic(auto, unfolding(crate::specs::Outcomes::outcome_refusal, words::specs::First::first_of))]
fn check_asked(bus: Bus, card: u8) -> Result<(), Refusal>
    ensures { answered result ≡ outcome_refusal bus card }
{
    if !makes_sense(bus) {
        Err(Refusal::Senseless)
    } else if 15 < card {
        Err(Refusal::Malformed)
    } else if !card_in(bus.fitted, card) {
        Err(Refusal::NotFitted)
    } else if !bus.is_in(Phase::Arbitration) {
        Err(Refusal::WrongPhase)
    } else if !card_in(bus.contenders, card) {
        Err(Refusal::NotItsTurn)
    } else if !bus.is_settled() {
        Err(Refusal::Unsettled)
    } else {
        Ok(())
    }
}

#[tactic(auto, unfolding(crate::specs::Outcomes::settled_outcome))]
fn settled_outcome(bus: Bus, card: u8) -> Outcome
    ensures { outcome_in (Ok result) ≡ settled_outcome bus card }
{
    match line_lost(card, bus.lines()) {
        None => Outcome::Wins,
        Some(line) => Outcome::Loses(Loss {
            line,
            rival: rival_at(bus, line).unwrap_or(NOBODY),
        }),
    }
}

// The highest of the four lines at which the card's number has 0, and the lines show 1.
fn line_lost(card: u8, lines: u8) -> Option<u8>
    ensures which { unwrap_or result no_line ≡ line_lost card lines }
    ensures within { IfSome result (λ line. line < 4) }
{
    (0..4u8).rev().find(|&line| (card >> line) % 2 != 1 && (lines >> line) % 2 == 1)
}

// The highest-numbered contender that drives the line.
fn rival_at(bus: Bus, line: u8) -> Option<u8>
    requires { line < 4 }
    ensures which { unwrap_or result nobody ≡ rival_at bus line }
    ensures within { IfSome result (λ card. card < 16) }
{
    (0..16u8).rev().find(|&card| {
        card_in(bus.contenders, card) && (bus.driven[usize::from(card)] >> line) % 2 == 1
    })
}
