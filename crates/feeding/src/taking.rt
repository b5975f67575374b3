// The lines that have ended, taken off a text, and what is written for them.
ghost use Rattle.std.specs.Prelude.{true, false, List, ◌≡◌, ℕ, ◌≤◌, length};
ghost use Rattle.std.proofs.lemmas.List.Edits.{sets};
ghost use Rattle.bus.specs.Sense.{makes_sense};
ghost use Rattle.judgement.specs.Refusals.{has_wrong_buffers};
ghost use Rattle.session.specs.World.{world, wanted_by, most_said};
ghost use Rattle.session.specs.Feeding.{takes, takes_first, has_room, lines_taken, told, world_of};
ghost use Rattle.session.specs.declared.state.Stage.TheVariants.{Awaiting, Running, Ended};
ghost use Rattle.session.specs.declared.state.Wanted.{Wanted};

use crate::saying::{fault_answer, most_said, put_event, put_reply};
use crate::setting::{session_after, set_up, setup_answer};
use bus::Bus;
use reading::{line_end, next_line};
use session::{Session, Stage, TakenLines, Wanted};
use stepping::sound_step;
use text::EVENT_DIGITS;

// An event line with its newline.
const EVENT_BYTES: usize = EVENT_DIGITS + 1;

// In a place with so many bytes written, another line would have room.
pub fn has_room(wanted: u8, out: &[u8], written: usize) -> bool
    ensures { result ≡ has_room (wanted_by wanted) (length out.now) written }
{
    written <= out.len() && most_said(Wanted::from(wanted)) <= out.len() - written
}

// As many lines as have ended and find room, one after another: each is read from the slice behind the newline before it.
// Kept: memory and ports as arrays, a bus that makes sense as a type and a line as an Option took s100_pins 3 % more instructions on right lines.
pub fn take_lines(
    wanted: Wanted,
    start: Session,
    text: &[u8],
    out: &mut [u8],
    memory: &mut [u8],
    ports: &mut [u8],
) -> TakenLines
    requires ports_value { has_wrong_buffers memory.old ports.old ≡ false }
    requires bus_value { makes_sense start.bus ≡ true }
    ensures taken { result ≡
        lines_taken (takes wanted (length out.old) (world_of start memory.old ports.old) text.now) }
    ensures out_left { out.new ≡
        sets out.old 0 (takes wanted (length out.old)
        (world_of start memory.old ports.old) text.now).said }
    ensures memory_left { memory.new ≡
        (takes wanted (length out.old) (world_of start memory.old ports.old) text.now).state.memory }
    ensures ports_left { ports.new ≡
        (takes wanted (length out.old) (world_of start memory.old ports.old) text.now).state.ports }
{
    let most = most_said(wanted);
    let mut stage = start.stage;
    let mut bus = start.bus;
    let mut rest = text;
    let mut used: usize = 0;
    let mut written: usize = 0;
    // Kept: a `while`, since no count says beforehand how many lines have ended and find room, and a `for` with a `break` for both would say less.
    while most <= out.len() - written {
        let line = take_line(wanted, stage, bus, rest, &mut out[written..], memory, ports);
        let size = line.used;
        if size == 0 {
            break;
        }
        let next = line.session;
        stage = next.stage;
        bus = next.bus;
        rest = &rest[size..];
        used += size;
        written += line.written;
    }
    TakenLines {
        session: Session { stage, bus },
        used,
        written,
    }
}

// The line that a text begins with, by the stage.
fn take_line(
    wanted: Wanted,
    stage: Stage,
    bus: Bus,
    rest: &[u8],
    out: &mut [u8],
    memory: &mut [u8],
    ports: &mut [u8],
) -> TakenLines
    requires wanted_in_bounds { most_said wanted ≤ length out.old }
    requires ports_value { has_wrong_buffers memory.old ports.old ≡ false }
    requires bus_value { makes_sense bus ≡ true }
    ensures taken { result ≡ lines_taken (takes_first wanted (world stage bus memory.old ports.old) rest.now) }
    ensures out_left { out.new ≡
        sets out.old 0 (takes_first wanted (world stage bus memory.old ports.old) rest.now).said }
    ensures memory_left { memory.new ≡
        (takes_first wanted (world stage bus memory.old ports.old) rest.now).state.memory }
    ensures ports_left { ports.new ≡
        (takes_first wanted (world stage bus memory.old ports.old) rest.now).state.ports }
{
    match stage {
        Stage::Awaiting => take_setup(wanted, bus, rest, out),
        Stage::Running => take_event(wanted, bus, rest, out, memory, ports),
        Stage::Ended => pass_line(bus, rest),
    }
}

// The setup line goes by neither memory nor ports.
fn take_setup(wanted: Wanted, bus: Bus, rest: &[u8], out: &mut [u8]) -> TakenLines
    requires { most_said wanted ≤ length out.old }
    ensures taken { (memory ports : List ℕ) → result ≡ lines_taken (takes_first wanted (world Awaiting bus memory ports) rest.now) }
    ensures out_left { (memory ports : List ℕ) → out.new ≡
        sets out.old 0 (takes_first wanted (world Awaiting bus memory ports) rest.now).said }
{
    let end = line_end(rest);
    if end < rest.len() {
        let given = set_up(&rest[..end]);
        let written = put_reply(wanted, setup_answer(given), out);
        let next = session_after(given);
        told(next.stage, next.bus, end + 1, written)
    } else {
        told(Stage::Awaiting, bus, 0, 0)
    }
}

fn take_event(
    wanted: Wanted,
    bus: Bus,
    rest: &[u8],
    out: &mut [u8],
    memory: &mut [u8],
    ports: &mut [u8],
) -> TakenLines
    requires wanted_in_bounds { most_said wanted ≤ length out.old }
    requires ports_value { has_wrong_buffers memory.old ports.old ≡ false }
    requires bus_value { makes_sense bus ≡ true }
    ensures taken { result ≡ lines_taken (takes_first wanted (world Running bus memory.old ports.old) rest.now) }
    ensures out_left { out.new ≡
        sets out.old 0 (takes_first wanted (world Running bus memory.old ports.old) rest.now).said }
    ensures memory_left { memory.new ≡
        (takes_first wanted (world Running bus memory.old ports.old) rest.now).state.memory }
    ensures ports_left { ports.new ≡
        (takes_first wanted (world Running bus memory.old ports.old) rest.now).state.ports }
{
    match next_line(rest) {
        Some(Ok(event)) => {
            let stepped = sound_step(bus, event, memory, ports);
            let written = put_event(wanted, event, stepped.answer, out);
            told(Stage::Running, stepped.bus, EVENT_BYTES, written)
        }
        Some(Err(bad)) => {
            let written = put_reply(wanted, fault_answer(bad.fault), out);
            told(Stage::Running, bus, bad.size + 1, written)
        }
        None => told(Stage::Running, bus, 0, 0),
    }
}

// Once setup was refused a line is passed over.
fn pass_line(bus: Bus, rest: &[u8]) -> TakenLines
    ensures { (wanted : Wanted) (memory ports : List ℕ) → result ≡ lines_taken (takes_first wanted (world Ended bus memory ports) rest.now) }
{
    let end = line_end(rest);
    if end < rest.len() {
        told(Stage::Ended, bus, end + 1, 0)
    } else {
        told(Stage::Ended, bus, 0, 0)
    }
}

fn told(stage: Stage, bus: Bus, used: usize, written: usize) -> TakenLines
    ensures { result ≡ told stage bus used written }
{
    TakenLines {
        session: Session { stage, bus },
        used,
        written,
    }
}
