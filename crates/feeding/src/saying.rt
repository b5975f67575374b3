// What is written for a line, by what is wanted: answers, pictures, or nothing until the end.
ghost use Rattle.std.specs.Prelude.{◌≡◌, ◌≤◌, length};
ghost use Rattle.std.proofs.lemmas.List.Edits.{sets};
ghost use Rattle.text.specs.Told.{fault_told};
ghost use Rattle.session.specs.World.{fault_answer, reply_as, event_as, most_said};

use bus::Refusal;
use events::Answer;
use judgement::Event;
use picturing::put_pictures;
use pins::sizes::MOST_PICTURED;
use printing::put_answer;
use session::Wanted;
use stepping::bare_with;
use text::{ANSWER_LENGTH, Fault, OUTCOMES_LENGTH};

// The most bytes that are written at once.
pub fn most_said(wanted: Wanted) -> usize
    ensures { result ≡ most_said wanted }
{
    match wanted {
        Wanted::Answers => ANSWER_LENGTH,
        Wanted::Pictures => MOST_PICTURED,
        Wanted::Outcomes => OUTCOMES_LENGTH,
    }
}

// The number of a bad line, and behind 0D the column of its first wrong character.
pub fn fault_answer(fault: Fault) -> Answer
    ensures { result ≡ fault_answer (fault_told fault) }
{
    bare_with(Refusal::from(fault).into(), fault.column().into())
}

// For a line that is no event.
pub fn put_reply(wanted: Wanted, answer: Answer, out: &mut [u8]) -> usize
    requires { most_said wanted ≤ length out.old }
    ensures put { result ≡ length (reply_as wanted answer) }
    ensures left { out.new ≡ sets out.old 0 (reply_as wanted answer) }
{
    match wanted {
        Wanted::Answers => put_answer(answer, out),
        // It has no picture, and outcomes come at the end.
        Wanted::Pictures | Wanted::Outcomes => 0,
    }
}

// For an event.
pub fn put_event(wanted: Wanted, event: Event, answer: Answer, out: &mut [u8]) -> usize
    requires { most_said wanted ≤ length out.old }
    ensures put { result ≡ length (event_as wanted event answer) }
    ensures left { out.new ≡ sets out.old 0 (event_as wanted event answer) }
{
    match wanted {
        Wanted::Answers => put_answer(answer, out),
        Wanted::Pictures => put_pictures(event, answer, out),
        Wanted::Outcomes => 0,
    }
}
