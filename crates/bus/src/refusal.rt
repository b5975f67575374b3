// Why something is refused, the number that each refusal is answered by, and what comes with one.
ghost use Rattle.std.specs.Prelude.{◌≡◌};
ghost use Rattle.bus.specs.Told.{number_of};

// In the order of their numbers.
#[derive(Clone, Copy, PartialEq, Eq)]
pub enum Refusal {
    WrongBuffers = 0x01,
    Senseless,
    Malformed,
    NobodyNamed,
    NotFitted,
    WrongPhase,
    NotItsTurn,
    Unsettled,
    OddWord,
    Absent,
    BadPage,
    WrongLineLength,
    WrongCharacter,
    // Not one of 01's: a buffer of a call has another length than it must have.
    WrongLength = 0xFF,
}

impl From<Refusal> for u8 {
    ghost from_gives = { λ refusal number. number ≡ number_of refusal };

    fn from(refusal: Refusal) -> u8 {
        refusal as u8
    }
}

// Why something is refused, and what is handed back in place of what was asked for.
#[derive(Clone, Copy)]
pub struct Refused<T> {
    pub refusal: Refusal,
    pub left: T,
}
