// The step of an event.
ghost use Rattle.std.specs.Prelude.{◌≡◌};
ghost use Rattle.bus.specs.Told.{number_of};
ghost use Rattle.events.specs.Answers.{refused_with};
ghost use Rattle.events.specs.Machine.{machine};
ghost use Rattle.events.specs.Step.{bus_by, taken_by, answer_by, stepped, after, step_of, sound_after, sound_step_of};

use crate::answering::{accepted_with, answer_with, bare_with, signals_with};
use crate::cycles::cycle;
use bus::{Bus, Refusal, Step};
use events::Stepped;
use judgement::Event;
use judging::{judge, page_at};
use memory::Slave;
use sense::makes_sense;
use tables::{signals, status};

// The step of an event that was not refused.
fn accepted(step: Step, bus: Bus, event: Event, memory: &mut [u8], ports: &mut [u8]) -> Stepped
    ensures both { result ≡ stepped (bus_by step bus event) (answer_by step (machine bus memory.old ports.old) event) }
    ensures memory_left { memory.new ≡ (taken_by step (machine bus memory.old ports.old) event).memory }
    ensures ports_left { ports.new ≡ (taken_by step (machine bus memory.old ports.old) event).ports }
{
    let slave = Slave {
        code: page_at(bus.pages, event.address),
    };
    let moved = cycle(slave, event, memory, ports);
    let next = bus.step_by(step, event.speaker, event.datum);
    let signals = signals_with(next.phase, event.kind, slave);
    Stepped {
        bus: next,
        answer: accepted_with(next, signals, status(event.kind), moved),
    }
}

// The step on a bus that makes sense, with memory and ports of the right lengths: neither is tested.
#[tactic(auto, using(events::proofs::StepLaws::sound_after_by, events::proofs::StepLaws::sound_answer_by))]
pub fn sound_step(bus: Bus, event: Event, memory: &mut [u8], ports: &mut [u8]) -> Stepped
    ensures both { result ≡ sound_step_of (machine bus memory.old ports.old) event }
    ensures memory_left { memory.new ≡ (sound_after (machine bus memory.old ports.old) event).memory }
    ensures ports_left { ports.new ≡ (sound_after (machine bus memory.old ports.old) event).ports }
{
    match judge(bus, event) {
        Ok(step) => accepted(step, bus, event, memory, ports),
        Err(refusal) => refused(refusal, bus),
    }
}

// The step of any event on any bus, with memory and ports of any length.
// Kept: memory and ports are two parameters, as the callers have them; a struct of both would be made here and taken apart again in `cycle`.
#[tactic(auto, using(events::proofs::StepLaws::after_by, events::proofs::StepLaws::answer_to_by))]
pub fn step(bus: Bus, event: Event, memory: &mut [u8], ports: &mut [u8]) -> Stepped
    ensures both { result ≡ step_of (machine bus memory.old ports.old) event }
    ensures memory_left { memory.new ≡ (after (machine bus memory.old ports.old) event).memory }
    ensures ports_left { ports.new ≡ (after (machine bus memory.old ports.old) event).ports }
{
    if memory.len() != 0x10000 || ports.len() != 0x100 {
        return refused(Refusal::WrongBuffers, bus);
    }
    if !makes_sense(bus) {
        return refused(Refusal::Senseless, bus);
    }
    sound_step(bus, event, memory, ports)
}

// A refused event leaves the bus as it was.
fn refused(refusal: Refusal, bus: Bus) -> Stepped
    ensures { result ≡ stepped bus (refused_with (number_of refusal) bus) }
{
    let number = u8::from(refusal);
    let answer = match refusal {
        Refusal::WrongBuffers | Refusal::Senseless => bare_with(number, 0),
        _ => answer_with(number, bus, signals(bus.phase), 0, 0, 0),
    };
    Stepped { bus, answer }
}
