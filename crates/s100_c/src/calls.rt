// Setup, step and settle on a state in a lent buffer.
ghost use Rattle.std.specs.Prelude.{◌≡◌};
ghost use Rattle.bus.specs.State.{chassis};
ghost use Rattle.judgement.specs.Table.{event_of};
ghost use Rattle.s100_c.specs.Calls.{
  setup_answers,
  setup_leaves,
  lent,
  step_answers,
  step_leaves,
  settle_answers,
  settle_leaves,
  settle_counts,
};

use crate::answer_layout::put_answer;
use crate::layout::{STATE_SIZE, bus_in, put_bus};
use bus::numbers::ACCEPTED;
use bus::{Chassis, Refusal};
use judgement::Event;
use sense::setup;
use settling::settle;
use stepping::step;

#[unsafe(no_mangle)]
pub extern "C" fn s100_setup(fitted: u16, pages: &[u8], state: &mut [u8]) -> u8
    ensures answers { result ≡ setup_answers (chassis fitted pages.now) state.old }
    ensures leaves { state.new ≡ setup_leaves (chassis fitted pages.now) state.old }
{
    let Some(pages) = pages.as_array() else {
        return u8::from(Refusal::WrongLength);
    };
    let Some(state) = state.as_mut_array() else {
        return u8::from(Refusal::WrongLength);
    };
    match setup(Chassis {
        fitted,
        pages: *pages,
    }) {
        Ok(bus) => {
            put_bus(bus, state);
            ACCEPTED
        }
        Err(refused) => {
            put_bus(refused.left, state);
            u8::from(refused.refusal)
        }
    }
}

#[tactic(auto, using(crate::proofs::CallLaws::first_answer), unfolding(crate::specs::Calls::step_answers, crate::specs::Calls::step_leaves))]
#[unsafe(no_mangle)]
pub extern "C" fn s100_step(
    state: &mut [u8],
    kind: u8,
    speaker: u8,
    address: u32,
    datum: u16,
    memory: &mut [u8],
    ports: &mut [u8],
    answer: &mut [u8],
) -> u8
    ensures answers { result ≡ step_answers (lent state.old memory.old ports.old answer.old)
        (event_of kind speaker address datum) }
    ensures leaves { lent state.new memory.new ports.new answer.new
        ≡ step_leaves (lent state.old memory.old ports.old answer.old)
        (event_of kind speaker address datum) }
{
    let Some(state) = state.as_mut_array() else {
        return u8::from(Refusal::WrongLength);
    };
    let Some(answer) = answer.as_mut_array() else {
        return u8::from(Refusal::WrongLength);
    };
    if memory.len() != 0x10000 || ports.len() != 0x100 {
        return u8::from(Refusal::WrongBuffers);
    }
    let event = Event {
        kind,
        speaker,
        address,
        datum,
    };
    let stepped = step(bus_in(state), event, memory, ports);
    put_bus(stepped.bus, state);
    put_answer(stepped.answer, answer);
    stepped.answer.refusal
}

#[unsafe(no_mangle)]
pub extern "C" fn s100_settle(state: &mut [u8], cards: &[u8], looks: &mut usize) -> u8
    ensures answers { result ≡ settle_answers state.old cards.now }
    ensures leaves { state.new ≡ settle_leaves state.old cards.now }
    ensures counts { looks.new ≡ settle_counts state.old cards.now looks.old }
{
    let Some(state) = state.as_mut_array::<STATE_SIZE>() else {
        return u8::from(Refusal::WrongLength);
    };
    let (answer, settled) = match settle(bus_in(state), cards) {
        Ok(settled) => (ACCEPTED, settled),
        Err(refused) => (u8::from(refused.refusal), refused.left),
    };
    put_bus(settled.bus, state);
    *looks = settled.looks;
    answer
}
