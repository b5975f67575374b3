// How far a run is, and what is wanted of it.
ghost use Rattle.std.specs.Prelude.{◌≡◌};
ghost use Rattle.session.specs.World.{wanted_by};

use bus::Bus;

#[derive(Clone, Copy, PartialEq, Eq)]
pub enum Stage {
    // The setup line is still to come.
    Awaiting,
    // Every line is an event.
    Running,
    // The setup line was refused: nothing is answered any more.
    Ended,
}

#[derive(Clone, Copy)]
pub struct Session {
    pub stage: Stage,
    pub bus: Bus,
}

// The numbers by which a program says what is wanted.
// Kept: numbers, since `run`, `feed` and `finish` take any number (`wanted_by`).
pub const WANTS_ANSWERS: u8 = 0;

pub const WANTS_PICTURES: u8 = 1;

pub const WANTS_OUTCOMES: u8 = 2;

// What is written of a run.
#[derive(Clone, Copy, PartialEq, Eq)]
pub enum Wanted {
    // An answer line for each line.
    Answers,
    // The pictures of each accepted event.
    Pictures,
    // At the end of the input, what the arbitration that the run has left means for each card.
    Outcomes,
}

// Any number but those of answers and outcomes asks for pictures.
impl From<u8> for Wanted {
    ghost from_gives = { λ number wanted. wanted ≡ wanted_by number };

    #[tactic(auto, unfolding(crate::specs::World::wanted_by))]
    fn from(number: u8) -> Wanted {
        match number {
            WANTS_ANSWERS => Wanted::Answers,
            WANTS_OUTCOMES => Wanted::Outcomes,
            _ => Wanted::Pictures,
        }
    }
}
