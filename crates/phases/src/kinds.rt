// The fifteen kinds of events, by name, with the numbers that 01 gives them in "Events".
ghost use Rattle.std.specs.Prelude.{◌≡◌, ◌||◌};
ghost use Rattle.phases.specs.Kinds.{number_of_kind, kind_of, Numbered};

#[derive(Clone, Copy, PartialEq, Eq)]
pub enum Kind {
    Request = 0x01,
    Look,
    Acknowledge,
    BeginTransferOne,
    TakeBus,
    ByteRead,
    OpcodeFetch,
    ByteWrite,
    WordRead,
    WordWrite,
    Input,
    Output,
    BeginTransferTwo,
    GiveBack,
    Reset,
}

// A number that no kind of event has.
#[derive(Clone, Copy, PartialEq, Eq)]
pub struct UnknownKind(pub u8);

impl TryFrom<u8> for Kind {
    type Error = UnknownKind;

    ghost try_from_gives = { λ number r. (r ≡ kind_of number) × Numbered number r };

    #[tactic(auto, unfolding(crate::specs::Kinds::kind_of, words::specs::Among::beside))]
    fn try_from(number: u8) -> Result<Self, UnknownKind> {
        match number {
            0x01 => Ok(Kind::Request),
            0x02 => Ok(Kind::Look),
            0x03 => Ok(Kind::Acknowledge),
            0x04 => Ok(Kind::BeginTransferOne),
            0x05 => Ok(Kind::TakeBus),
            0x06 => Ok(Kind::ByteRead),
            0x07 => Ok(Kind::OpcodeFetch),
            0x08 => Ok(Kind::ByteWrite),
            0x09 => Ok(Kind::WordRead),
            0x0A => Ok(Kind::WordWrite),
            0x0B => Ok(Kind::Input),
            0x0C => Ok(Kind::Output),
            0x0D => Ok(Kind::BeginTransferTwo),
            0x0E => Ok(Kind::GiveBack),
            0x0F => Ok(Kind::Reset),
            _ => Err(UnknownKind(number)),
        }
    }
}

impl From<Kind> for u8 {
    ghost from_gives = { λ kind number. number ≡ number_of_kind kind };

    fn from(kind: Kind) -> u8 {
        kind as u8
    }
}

impl Kind {
    ghost use Rattle.phases.specs.Kind.{is_of_memory, is_of_ports, is_word};
    ghost use Rattle.phases.specs.Control.{is_reading, is_writing};

    // A byte or a word of the memory is read or written.
    pub fn is_of_memory(self) -> bool
        ensures { result ≡ is_of_memory (number_of_kind self) }
    {
        matches!(
            self,
            Kind::ByteRead | Kind::OpcodeFetch | Kind::ByteWrite | Kind::WordRead | Kind::WordWrite
        )
    }

    pub fn is_of_ports(self) -> bool
        ensures { result ≡ is_of_ports (number_of_kind self) }
    {
        matches!(self, Kind::Input | Kind::Output)
    }

    // Memory or a port is read or written.
    pub fn is_cycle(self) -> bool
        ensures { result ≡ (is_of_memory (number_of_kind self) || is_of_ports (number_of_kind self)) }
    {
        self.is_of_memory() || self.is_of_ports()
    }

    pub fn is_word(self) -> bool
        ensures { result ≡ is_word (number_of_kind self) }
    {
        matches!(self, Kind::WordRead | Kind::WordWrite)
    }

    // A cycle with the read strobe.
    #[tactic(auto, unfolding(words::specs::Among::is_among))]
    pub fn is_reading(self) -> bool
        ensures { result ≡ is_reading (number_of_kind self) }
    {
        matches!(
            self,
            Kind::ByteRead | Kind::OpcodeFetch | Kind::WordRead | Kind::Input
        )
    }

    // A cycle with the write strobe.
    #[tactic(auto, unfolding(words::specs::Among::is_among))]
    pub fn is_writing(self) -> bool
        ensures { result ≡ is_writing (number_of_kind self) }
    {
        matches!(self, Kind::ByteWrite | Kind::WordWrite | Kind::Output)
    }
}
