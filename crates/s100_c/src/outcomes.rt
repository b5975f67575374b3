// The outcome of an arbitration for one card, of a state in a lent buffer.
ghost use Rattle.std.specs.Prelude.{◌≡◌};
ghost use Rattle.s100_c.specs.Outcomes.{outcome_answers, outcome_leaves};

use crate::layout::lent_bus;
use bus::Refusal;
use outcome::{Figures, outcome_for};

#[tactic(auto, unfolding(crate::specs::Outcomes::outcome_answers, crate::specs::Outcomes::outcome_leaves))]
#[unsafe(no_mangle)]
pub extern "C" fn s100_outcome(state: &[u8], card: u8, outcome: &mut [u8]) -> u8
    ensures answers { result ≡ outcome_answers state.now card outcome.old }
    ensures leaves { outcome.new ≡ outcome_leaves state.now card outcome.old }
{
    let Some(bus) = lent_bus(state) else {
        return u8::from(Refusal::WrongLength);
    };
    let Some(outcome) = outcome.as_mut_array() else {
        return u8::from(Refusal::WrongLength);
    };
    let figures = Figures::of(card, outcome_for(bus, card));
    *outcome = [figures.answer, figures.card, figures.line, figures.rival];
    figures.answer
}
