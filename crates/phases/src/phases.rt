// The six phases of the bus, by name, with the numbers that 01 gives them in "State and phases".
ghost use Rattle.std.specs.Prelude.{◌≡◌};
ghost use Rattle.phases.specs.Phases.{number_of_phase, phase_of, Known};

// In the order of their numbers, from 0 on. A state's phase may be another number, and is none of these then.
#[derive(Clone, Copy, PartialEq, Eq)]
pub enum Phase {
    Free,
    Arbitration,
    Granted,
    TransferOne,
    Owned,
    TransferTwo,
}

// A number that no phase has.
#[derive(Clone, Copy, PartialEq, Eq)]
pub struct UnknownPhase(pub u8);

impl TryFrom<u8> for Phase {
    type Error = UnknownPhase;

    ghost try_from_gives = { λ number r. (r ≡ phase_of number) × Known number r };

    #[tactic(auto, unfolding(crate::specs::Phases::phase_of, words::specs::Among::beside))]
    fn try_from(number: u8) -> Result<Self, UnknownPhase> {
        match number {
            0 => Ok(Phase::Free),
            1 => Ok(Phase::Arbitration),
            2 => Ok(Phase::Granted),
            3 => Ok(Phase::TransferOne),
            4 => Ok(Phase::Owned),
            5 => Ok(Phase::TransferTwo),
            _ => Err(UnknownPhase(number)),
        }
    }
}

impl From<Phase> for u8 {
    ghost from_gives = { λ phase number. number ≡ number_of_phase phase };

    fn from(phase: Phase) -> u8 {
        phase as u8
    }
}
