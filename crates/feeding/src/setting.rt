// A session before its first line, and the setup line.
ghost use Rattle.std.specs.Prelude.{◌≡◌};
ghost use Rattle.text.specs.Frames.{setup_in};
ghost use Rattle.text.specs.Told.{refusal_of, column_of};
ghost use Rattle.session.specs.World.{fresh, set_up_by, setup_answer};
ghost use Rattle.feeding.specs.Told.{set_up_told, answer_told, session_told};

use bus::numbers::ACCEPTED;
use bus::{Bus, EMPTY_CHASSIS, Refusal, Refused};
use events::Answer;
use reading::setup_line;
use sense::{freed, setup};
use session::{Session, Stage};
use stepping::{answer_with, bare_with};
use tables::signals;
use text::Fault;

pub fn fresh() -> Session
    ensures { result ≡ fresh }
{
    Session {
        stage: Stage::Awaiting,
        bus: freed(EMPTY_CHASSIS),
    }
}

// Why a line is refused, and the column of the character that is to blame; 0 where none is.
#[derive(Clone, Copy)]
pub struct RefusedLine {
    refusal: Refusal,
    column: u8,
}

impl From<Fault> for RefusedLine {
    ghost from_gives = { λ fault refused. (refused.refusal ≡ refusal_of fault) × (refused.column ≡ column_of fault) };

    fn from(fault: Fault) -> RefusedLine {
        RefusedLine {
            refusal: fault.into(),
            column: fault.column(),
        }
    }
}

impl From<Refused<Bus>> for RefusedLine {
    ghost from_gives = { λ given refused. (refused.refusal ≡ given.refusal) × (refused.column ≡ 0) };

    fn from(given: Refused<Bus>) -> RefusedLine {
        RefusedLine {
            refusal: given.refusal,
            column: 0,
        }
    }
}

// The bus that a setup line sets up.
pub fn set_up(line: &[u8]) -> Result<Bus, RefusedLine>
    ensures bus { set_up_told result ≡ set_up_by (setup_in line.now) }
    ensures answer { answer_told result ≡ setup_answer (setup_in line.now).fault (set_up_by (setup_in line.now)) }
{
    Ok(setup(setup_line(line)?)?)
}

// What the setup line is answered.
pub fn setup_answer(given: Result<Bus, RefusedLine>) -> Answer
    ensures { result ≡ answer_told given }
{
    match given {
        Ok(bus) => answer_with(ACCEPTED, bus, signals(bus.phase), 0, 0, 0),
        Err(refused) => bare_with(refused.refusal.into(), refused.column.into()),
    }
}

// Where the setup line leads to: a refused one to an empty chassis.
pub fn session_after(given: Result<Bus, RefusedLine>) -> Session
    ensures { result ≡ session_told given }
{
    match given {
        Ok(bus) => Session {
            stage: Stage::Running,
            bus,
        },
        Err(_) => Session {
            stage: Stage::Ended,
            bus: freed(EMPTY_CHASSIS),
        },
    }
}
