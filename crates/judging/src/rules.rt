// What kind and phase say together.
ghost use Rattle.std.specs.Prelude.{◌≡◌};
ghost use Rattle.phases.specs.Kinds.{number_of_kind};
ghost use Rattle.judgement.specs.Told.{verdict_in};
ghost use Rattle.judging.specs.Turns.{ruled_of};

use bus::{Refusal, Step};
use phases::{Kind, Phase};

// Kept: numbers, since 01 asks for ranges where kinds go together, and of an enum's variants there are none.
const REQUEST: u8 = Kind::Request as u8;

const LOOK: u8 = Kind::Look as u8;

const ACKNOWLEDGE: u8 = Kind::Acknowledge as u8;

const BEGIN_TRANSFER_ONE: u8 = Kind::BeginTransferOne as u8;

const TAKE_BUS: u8 = Kind::TakeBus as u8;

const BYTE_READ: u8 = Kind::ByteRead as u8;

const OUTPUT: u8 = Kind::Output as u8;

const BEGIN_TRANSFER_TWO: u8 = Kind::BeginTransferTwo as u8;

const GIVE_BACK: u8 = Kind::GiveBack as u8;

const RESET: u8 = Kind::Reset as u8;

const FREE: u8 = Phase::Free as u8;

const ARBITRATION: u8 = Phase::Arbitration as u8;

const GRANTED: u8 = Phase::Granted as u8;

const TRANSFER_ONE: u8 = Phase::TransferOne as u8;

const OWNED: u8 = Phase::Owned as u8;

const TRANSFER_TWO: u8 = Phase::TransferTwo as u8;

// 06, or the step of the kind.
#[tactic(auto, unfolding(crate::specs::Turns::ruled_of, words::specs::Among::beside))]
pub fn ruled(kind: Kind, phase: u8) -> Result<Step, Refusal>
    ensures { verdict_in result ≡ ruled_of (number_of_kind kind) phase }
{
    match (u8::from(kind), phase) {
        (REQUEST, FREE) => Ok(Step::Request),
        (LOOK, ARBITRATION) => Ok(Step::Look),
        (ACKNOWLEDGE, ARBITRATION) => Ok(Step::Acknowledge),
        (BEGIN_TRANSFER_ONE, GRANTED) => Ok(Step::BeginTransferOne),
        (TAKE_BUS, TRANSFER_ONE) => Ok(Step::TakeBus),
        (BYTE_READ..=OUTPUT, FREE..=ARBITRATION | OWNED) => Ok(Step::Cycle),
        (BEGIN_TRANSFER_TWO, OWNED) => Ok(Step::BeginTransferTwo),
        (GIVE_BACK, TRANSFER_TWO) => Ok(Step::GiveBack),
        (RESET, _) => Ok(Step::Reset),
        _ => Err(Refusal::WrongPhase),
    }
}
