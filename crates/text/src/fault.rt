// What is wrong with a line that is to have so many digits (01, "Refusals and their order", and 02, CR 2).
ghost use Rattle.std.specs.Prelude.{◌≡◌};
ghost use Rattle.text.specs.Told.{refusal_of, column_of};

use bus::Refusal;

#[derive(Clone, Copy, PartialEq, Eq)]
pub enum Fault {
    // The line's, whatever its characters are.
    WrongLength,
    // The first wrong one's column is counted from 1.
    WrongCharacter { column: u8 },
}

impl Fault {
    // Where no character is to blame 0.
    pub fn column(self) -> u8
        ensures { result ≡ column_of self }
    {
        match self {
            Fault::WrongLength => 0,
            Fault::WrongCharacter { column } => column,
        }
    }
}

impl From<Fault> for Refusal {
    ghost from_gives = { λ fault refusal. refusal ≡ refusal_of fault };

    fn from(fault: Fault) -> Refusal {
        match fault {
            Fault::WrongLength => Refusal::WrongLineLength,
            Fault::WrongCharacter { column: _ } => Refusal::WrongCharacter,
        }
    }
}
