// Settle: looks in list order until the lines are settled.
#![tactic(auto)]

ghost use Rattle.std.specs.Prelude.{◌≡◌, Err, cond};
ghost use Rattle.bus.specs.Refusal.{unsettled};
ghost use Rattle.bus.specs.Settle.{leading_looks, list_refusal, never_settles, settle_refused, accepted_after, settle_of};
ghost use Rattle.bus.specs.Told.{number_of, answered, settlement};

use bus::{Bus, Refusal, Refused, Settled};
use cards::{all_at_most, all_in};
use phases::Phase;
use sense::makes_sense;

// A refusal leaves the state alone and counts no look.
pub fn settle(bus: Bus, cards: &[u8]) -> Result<Settled, Refused<Settled>>
    ensures { settlement result ≡ settle_of bus cards.now }
{
    match check_list(bus, cards) {
        Ok(()) => settle_by(bus, cards),
        Err(refusal) => Err(left_alone(bus, refusal)),
    }
}

fn left_alone(bus: Bus, refusal: Refusal) -> Refused<Settled>
    ensures { settlement (Err result) ≡ settle_refused (number_of refusal) bus }
{
    Refused {
        refusal,
        left: Settled { bus, looks: 0 },
    }
}

// What is wrong with the state or the list, before any look.
#[tactic(auto, unfolding(bus::specs::Settle::list_refusal, words::specs::First::first_of))]
fn check_list(bus: Bus, cards: &[u8]) -> Result<(), Refusal>
    ensures { answered result ≡ list_refusal bus cards.now }
{
    if !makes_sense(bus) {
        Err(Refusal::Senseless)
    } else if !all_at_most(15, cards) {
        Err(Refusal::Malformed)
    } else if !all_in(bus.fitted, cards) {
        Err(Refusal::NotFitted)
    } else if !bus.is_in(Phase::Arbitration) {
        Err(Refusal::WrongPhase)
    } else if !all_in(bus.contenders, cards) {
        Err(Refusal::NotItsTurn)
    } else {
        Ok(())
    }
}

// The looks themselves.
fn settle_by(start: Bus, cards: &[u8]) -> Result<Settled, Refused<Settled>>
    ensures { settlement result ≡ cond (never_settles start cards.now)
        (settle_refused unsettled start)
        (accepted_after (leading_looks start cards.now) start cards.now) }
{
    let mut bus = start;
    for (n, &card) in cards.iter().enumerate() {
        if bus.is_settled() {
            return Ok(Settled { bus, looks: n });
        }
        bus = bus.look(card);
    }
    if bus.is_settled() {
        Ok(Settled {
            bus,
            looks: cards.len(),
        })
    } else {
        Err(left_alone(start, Refusal::Unsettled))
    }
}
