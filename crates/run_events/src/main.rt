// Runs events with a memory, ports and a state that no text can bring about (01 and 02), and prints each answer as 01's line has it. The file
// stdout was written by hand from 01.
#![tactic(auto)]

use bus::{Bus, Chassis};
use events::Answer;
use judgement::{Event, PERMANENT_MASTER};
use phases::Kind;
use sense::setup;
use std::io;
use stepping::step;

fn main(rt: HostRuntime) -> io::Result<()> {
    let mut memory = [0; 65536];
    let mut ports = [0; 256];
    let mut short = [0; 65535];
    let mut few = [0; 255];
    let first = at_four(Kind::ByteWrite, 0xEE);
    let second = at_four(Kind::ByteWrite, 0x11);
    let read = at_four(Kind::ByteRead, 0);
    println!(rt; "a byte is written")?;
    let bus = answered(&rt, all_fitted(), first, &mut memory, &mut ports)?;
    // Memory and ports of wrong lengths.
    println!(rt; "01 for the memory, and for the ports")?;
    answered(&rt, bus, second, &mut short, &mut ports)?;
    answered(&rt, bus, second, &mut memory, &mut few)?;
    // A state with a phase that there is not.
    println!(rt; "01 before 02, and 02")?;
    let mut lost = bus;
    lost.phase = 0xFF;
    answered(&rt, lost, second, &mut short, &mut ports)?;
    answered(&rt, lost, second, &mut memory, &mut ports)?;
    // The refused writes left the byte.
    println!(rt; "the byte is still there")?;
    answered(&rt, bus, read, &mut memory, &mut ports)?;
    println!(rt; "{:02X}{:02X} in the short buffers", short[4], few[4])
}

fn all_fitted() -> Bus {
    let chassis = Chassis {
        fitted: 0xFFFF,
        pages: [1; 16],
    };
    setup(chassis).unwrap_or_else(|refused| refused.left)
}

// What the permanent master asks for at address 4.
fn at_four(kind: Kind, datum: u16) -> Event {
    Event {
        kind: kind.into(),
        speaker: PERMANENT_MASTER,
        address: 4,
        datum,
    }
}

// One event, answered on a line; the bus that it leaves.
fn answered(
    rt: &impl Print,
    bus: Bus,
    event: Event,
    memory: &mut [u8],
    ports: &mut [u8],
) -> io::Result<Bus> {
    let stepped = step(bus, event, memory, ports);
    put_answer(rt, stepped.answer)?;
    Ok(stepped.bus)
}

// The eighteen digits of an answer line.
fn put_answer(rt: &impl Print, answer: Answer) -> io::Result<()> {
    println!(rt;
        "{:02X}{:02X}{:02X}{:02X}{:02X}{:02X}{:02X}{:04X}",
        answer.refusal,
        answer.phase,
        answer.granted,
        answer.lines,
        answer.signals,
        answer.status,
        answer.cycles,
        answer.datum
    )
}
