// The judgement: the refusal of an event on a sensible bus, or the step that it takes.
ghost use Rattle.std.specs.Prelude.{◌≡◌, Ok, Err, cond, eqb};
ghost use Rattle.judgement.specs.Table.{master_of};
ghost use Rattle.judgement.specs.Judge.{Takes, sound_verdict};
ghost use Rattle.judgement.specs.Told.{verdict_in};
ghost use Rattle.judging.specs.Turns.{turn_of, in_turn, at_address, asked_of, verdict_after};

use crate::reasons::KnownEvent;
use crate::rules::ruled;
use bus::{Bus, Refusal, Step};
use cards::card_in;
use judgement::{Event, PERMANENT_MASTER};
use phases::{Kind, Phase};

// 03, 04 and 05, and then what kind and phase say.
#[tactic(auto, using(crate::proofs::TurnLaws::sound_chain, crate::proofs::TurnLaws::unknown_refused))]
pub fn judge(bus: Bus, event: Event) -> Result<Step, Refusal>
    ensures { verdict_in result ≡ sound_verdict bus event }
{
    let Ok(kind) = Kind::try_from(event.kind) else {
        return Err(Refusal::Malformed);
    };
    let known = KnownEvent { kind, event };
    refuse_if(known.is_malformed(), Refusal::Malformed)?;
    refuse_if(known.names_nobody(), Refusal::NobodyNamed)?;
    refuse_if(known.names_unfitted(bus.fitted), Refusal::NotFitted)?;
    turn(bus, known)
}

// From 06 on.
#[tactic(auto, using(crate::proofs::TurnLaws::turn_asks))]
fn turn(bus: Bus, known: KnownEvent) -> Result<Step, Refusal>
    ensures { verdict_in result ≡ turn_of bus known.event }
{
    let step = ruled(known.kind, bus.phase)?;
    asked(step, bus, known)?;
    Ok(step)
}

// From 07 on: whatever else the step asks for.
fn asked(step: Step, bus: Bus, known: KnownEvent) -> Result<(), Refusal>
    ensures { verdict_after (Takes step) result ≡ asked_of step bus known.event }
{
    let speaker = known.event.speaker;
    match step {
        Step::Request | Step::Reset => Ok(()),
        Step::Look => refuse_if(!card_in(bus.contenders, speaker), Refusal::NotItsTurn),
        Step::Acknowledge => refuse_if(!bus.is_settled(), Refusal::Unsettled),
        Step::BeginTransferOne | Step::TakeBus | Step::BeginTransferTwo | Step::GiveBack => {
            refuse_if(speaker != bus.granted, Refusal::NotItsTurn)
        }
        Step::Cycle => cycle(bus, known),
    }
}

// 07, and what goes by the address, of a cycle.
fn cycle(bus: Bus, known: KnownEvent) -> Result<(), Refusal>
    ensures { verdict_after (Takes Step.Cycle) result ≡ in_turn (eqb known.event.speaker (master_of bus)) (at_address bus known.event) }
{
    refuse_if(known.event.speaker != master_of(bus), Refusal::NotItsTurn)?;
    refuse_if(known.is_odd_word(), Refusal::OddWord)?;
    refuse_if(known.is_absent(bus.pages), Refusal::Absent)
}

// This refusal, where it applies.
fn refuse_if(applies: bool, refusal: Refusal) -> Result<(), Refusal>
    ensures { result ≡ cond applies (Err refusal) (Ok tt) }
{
    if applies { Err(refusal) } else { Ok(()) }
}

fn master_of(bus: Bus) -> u8
    ensures { result ≡ master_of bus }
{
    if bus.is_in(Phase::Owned) {
        bus.granted
    } else {
        PERMANENT_MASTER
    }
}
