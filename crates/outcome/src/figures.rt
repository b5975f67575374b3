// The outcome for a card, and what is told of it in numbers.
ghost use Rattle.std.specs.Prelude.{◌≡◌};
ghost use Rattle.outcome.specs.Outcomes.{figures_of, Refused};
ghost use Rattle.outcome.specs.Told.{outcome_in};

use bus::Refusal;
use bus::numbers::{ACCEPTED, NOBODY};

// There is no line at which the card loses.
pub const NO_LINE: u8 = 0xFF;

// The priority line at which a card loses, 3 for weight 8 to 0 for weight 1, and the card that it loses to.
#[derive(Clone, Copy, PartialEq, Eq)]
pub struct Loss {
    pub line: u8,
    pub rival: u8,
}

#[derive(Clone, Copy, PartialEq, Eq)]
pub enum Outcome {
    Wins,
    Loses(Loss),
}

// Kept: numbers, since an outcome line and the C interface show them (`figures_of`), FF where there is neither line nor rival.
// What is told of it: the answer's number, the card that was asked about, the line and the rival.
#[derive(Clone, Copy, PartialEq, Eq)]
pub struct Figures {
    pub answer: u8,
    pub card: u8,
    pub line: u8,
    pub rival: u8,
}

// Neither a line nor a rival.
const NO_LOSS: Loss = Loss {
    line: NO_LINE,
    rival: NOBODY,
};

impl Figures {
    pub fn of(card: u8, told: Result<Outcome, Refusal>) -> Figures
        ensures { result ≡ figures_of card (outcome_in told) }
    {
        let loss = match told {
            Err(refusal) => return Figures::refused(card, u8::from(refusal)),
            Ok(Outcome::Wins) => NO_LOSS,
            Ok(Outcome::Loses(loss)) => loss,
        };
        Figures {
            answer: ACCEPTED,
            card,
            line: loss.line,
            rival: loss.rival,
        }
    }

    // A refusal by any number, one that is no refusal's too.
    pub fn refused(card: u8, number: u8) -> Figures
        ensures { result ≡ figures_of card (Refused number) }
    {
        Figures {
            answer: number,
            card,
            line: NO_LINE,
            rival: NOBODY,
        }
    }
}
