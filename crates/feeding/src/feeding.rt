// A call for each chunk of the text, and one for its end.
ghost use Rattle.std.specs.Prelude.{true, false, ◌≡◌, ◌≤◌, length, take};
ghost use Rattle.std.proofs.lemmas.List.Edits.{sets};
ghost use Rattle.bus.specs.Sense.{makes_sense};
ghost use Rattle.bus.specs.Told.{answered};
ghost use Rattle.judgement.specs.Refusals.{has_wrong_buffers};
ghost use Rattle.session.specs.World.{wanted_by};
ghost use Rattle.session.specs.Feeding.{world_of, takes, feed_refusal, taken_fed, fed_told, fed_in, held_in};
ghost use Rattle.session.specs.Feeding.{fed_of, world_left, out_left, text_left};
ghost use Rattle.session.specs.Feeding.{ended_text, ended_at, finished_of, finished_text, finished_out, finished_world};

use crate::closing::close;
use crate::holding::hold;
use crate::taking::take_lines;
use bus::{Bus, Refusal};
use sense::makes_sense;
use session::{Fed, Session, Wanted};
use text::NEWLINE;

// Takes the lines that have ended in the filled part of the text, as many as `out` has room for, and brings the rest to the front.
// What is read next goes behind it.
// Kept: how much is filled stands beside the text, since a caller may say more than there is, which is refused (`feed_refusal`).
pub fn feed(
    wanted: u8,
    session: Session,
    text: &mut [u8],
    filled: usize,
    out: &mut [u8],
    memory: &mut [u8],
    ports: &mut [u8],
) -> Result<Fed, Refusal>
    ensures fed { fed_in session filled result ≡
        fed_of (wanted_by wanted) (world_of session memory.old ports.old) text.old filled out.old }
    ensures text_left { text.new ≡
        text_left (wanted_by wanted) (world_of session memory.old ports.old) text.old filled out.old }
    ensures out_left { out.new ≡
        out_left (wanted_by wanted) (world_of session memory.old ports.old) text.old filled out.old }
    ensures memory_left { memory.new ≡
        (world_left (wanted_by wanted) (world_of session memory.old ports.old) text.old filled out.old).memory }
    ensures ports_left { ports.new ≡
        (world_left (wanted_by wanted) (world_of session memory.old ports.old) text.old filled out.old).ports }
{
    check(session.bus, text, filled, memory, ports)?;
    Ok(take_in(wanted.into(), session, text, filled, out, memory, ports))
}

fn take_in(
    wanted: Wanted,
    session: Session,
    text: &mut [u8],
    filled: usize,
    out: &mut [u8],
    memory: &mut [u8],
    ports: &mut [u8],
) -> Fed
    requires filled_in_bounds { filled ≤ length text.old }
    requires ports_value { has_wrong_buffers memory.old ports.old ≡ false }
    requires bus_value { makes_sense session.bus ≡ true }
    ensures fed { fed_told result ≡
        taken_fed (takes wanted (length out.old)
        (world_of session memory.old ports.old) (take filled text.old)) }
    ensures text_left { text.new ≡
        held_in text.old (takes wanted (length out.old)
        (world_of session memory.old ports.old) (take filled text.old)).rest }
    ensures out_left { out.new ≡
        sets out.old 0 (takes wanted (length out.old)
        (world_of session memory.old ports.old) (take filled text.old)).said }
    ensures memory_left { memory.new ≡
        (takes wanted (length out.old) (world_of session memory.old ports.old)
        (take filled text.old)).state.memory }
    ensures ports_left { ports.new ≡
        (takes wanted (length out.old) (world_of session memory.old ports.old)
        (take filled text.old)).state.ports }
{
    let taken = take_lines(wanted, session, &text[..filled], out, memory, ports);
    let held = hold(text, taken.used, filled);
    Fed {
        session: taken.session,
        held,
        written: taken.written,
    }
}

fn check(bus: Bus, text: &[u8], filled: usize, memory: &[u8], ports: &[u8]) -> Result<(), Refusal>
    ensures { answered result ≡ feed_refusal bus memory.now ports.now text.now filled }
{
    if text.len() < filled {
        Err(Refusal::WrongLength)
    } else if memory.len() != 0x10000 || ports.len() != 0x100 {
        Err(Refusal::WrongBuffers)
    } else if !makes_sense(bus) {
        Err(Refusal::Senseless)
    } else {
        Ok(())
    }
}

// The end of the input ends the line that is held, as a newline would, unless one ends it already; what is written at the end stands
// behind what that line got.
pub fn finish(
    wanted: u8,
    session: Session,
    text: &mut [u8],
    held: usize,
    out: &mut [u8],
    memory: &mut [u8],
    ports: &mut [u8],
) -> Result<Fed, Refusal>
    ensures fed { fed_in session held result ≡
        finished_of (wanted_by wanted) (world_of session memory.old ports.old) text.old held out.old }
    ensures text_left { text.new ≡
        finished_text (wanted_by wanted) (world_of session memory.old ports.old) text.old held out.old }
    ensures out_left { out.new ≡
        finished_out (wanted_by wanted) (world_of session memory.old ports.old) text.old held out.old }
    ensures memory_left { memory.new ≡
        (finished_world (wanted_by wanted) (world_of session memory.old ports.old) text.old held out.old).memory }
    ensures ports_left { ports.new ≡
        (finished_world (wanted_by wanted) (world_of session memory.old ports.old) text.old held out.old).ports }
{
    check(session.bus, text, held, memory, ports)?;
    let wanted = Wanted::from(wanted);
    let filled = end_line(text, held);
    let fed = take_in(wanted, session, text, filled, out, memory, ports);
    Ok(close(wanted, fed, out))
}

fn end_line(text: &mut [u8], held: usize) -> usize
    ensures ended_at { result ≡ ended_at text.old held }
    ensures text_left { text.new ≡ ended_text text.old held }
{
    if 0 < held && held < text.len() {
        let last = text[held - 1];
        if last != NEWLINE {
            text[held] = NEWLINE;
            return held + 1;
        }
    }
    held
}
