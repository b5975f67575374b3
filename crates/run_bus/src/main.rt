// Prints the tables of the bus and runs of its methods, in hexadecimal. The file stdout was written by hand, from the tables and runs of 01.
#![tactic(auto)]

use bus::numbers::{ACCEPTED, NOBODY};
use bus::{Bus, Chassis, Settled, Step};
use memory::{EIGHT_BIT_PAGE, Moved, SIXTEEN_BIT_PAGE, Slave};
use phases::Phase;
use phases::numbers::*;
use sense::{freed, makes_sense, setup};
use settling::settle;
use std::io;

fn main(rt: HostRuntime) -> io::Result<()> {
    weights(&rt)?;
    drivers_and_signals(&rt)?;
    kinds(&rt)?;
    printed_run(&rt)?;
    setups_and_senses(&rt)?;
    out_of_turn(&rt)?;
    four_nine_ten(&rt)?;
    settles(&rt)?;
    refused_settles(&rt)?;
    bytes(&rt)?;
    words(&rt)
}

// A line of bytes, two digits each.
fn show_row(rt: &impl Print, row: &[u8]) -> io::Result<()> {
    for byte in row {
        print!(rt; "{byte:02X}")?;
    }
    println!(rt; "")
}

// ---- The tables, by phase and by kind

fn weights(rt: &impl Print) -> io::Result<()> {
    println!(rt;
        "weights of HOLD, pHLDA, ADSB, SDSB, DODSB, CDSB; of sMEMR, sM1, sINP, sOUT, sWO"
    )?;
    show_row(rt, &[HOLD, P_HLDA, ADSB, SDSB, DODSB, CDSB])?;
    show_row(rt, &[S_MEMR, S_M1, S_INP, S_OUT, S_WO])
}

// The last phase is one that there is not.
fn drivers_and_signals(rt: &impl Print) -> io::Result<()> {
    println!(rt;
        "phase, drivers of address, status, data-out and control, signals, control outputs"
    )?;
    for phase in 0..=LAST_PHASE + 1 {
        print!(rt; "{phase:02X}")?;
        for group in 0..4 {
            print!(rt; "{:02X}", u8::from(tables::driver(phase, group)))?;
        }
        show_row(rt, &[tables::signals(phase), tables::control(phase, 0)])?;
    }
    Ok(())
}

// MWRT is that of the permanent master's cycle, and the control outputs are also those in transfer one and in the granted card's cycle. The last
// kind is one that there is not.
fn kinds(rt: &impl Print) -> io::Result<()> {
    println!(rt; "kind, status, MWRT, control outputs in phases 0, 3 and 4")?;
    for kind in [
        0x01, 0x05, 0x06, 0x07, 0x08, 0x09, 0x0A, 0x0B, 0x0C, 0x0D, 0x0F, 0x10,
    ] {
        let status = tables::status(kind);
        let phases = [Phase::Free, Phase::TransferOne, Phase::Owned];
        let [free, between, owned] = phases.map(|phase| tables::control(phase.into(), kind));
        let memory_write = u8::from(tables::mwrt(free, status));
        show_row(rt, &[kind, status, memory_write, free, between, owned])?;
    }
    Ok(())
}

// ---- The states of 01's printed run, its cycles left out

// Phase, granted card, lines and signals, as the answer lines have them.
fn show_bus(rt: &impl Print, bus: Bus) -> io::Result<()> {
    let Bus { phase, granted, .. } = bus;
    show_row(rt, &[phase, granted, bus.lines(), tables::signals(phase)])
}

fn chassis(fitted: u16, pages: [u8; 16]) -> Chassis {
    Chassis { fitted, pages }
}

// The answer's number on a line; the bus.
fn show_setup(rt: &impl Print, pages: [u8; 16]) -> io::Result<Bus> {
    let (answer, bus) = match setup(chassis(0x000A, pages)) {
        Ok(bus) => (ACCEPTED, bus),
        Err(refused) => (refused.refusal.into(), refused.left),
    };
    println!(rt; "{answer:02X}")?;
    Ok(bus)
}

fn printed_run(rt: &impl Print) -> io::Result<()> {
    println!(rt; "the printed run: phase, granted, lines, signals")?;
    let mut bus = show_setup(rt, [1, 2, 0, 0, 0, 0, 0, 0, 0, 0, 0, 0, 0, 0, 0, 0])?;
    show_bus(rt, bus)?;
    for (step, speaker, datum) in [
        (Step::Request, 0, 0x000A),
        (Step::Look, 1, 0),
        (Step::Look, 3, 0),
        (Step::Acknowledge, 0, 0),
        (Step::Look, 1, 0),
        (Step::Acknowledge, 0, 0),
        (Step::BeginTransferOne, 3, 0),
        (Step::TakeBus, 3, 0),
        (Step::BeginTransferTwo, 3, 0),
        (Step::Request, 0, 0x0002),
        (Step::GiveBack, 3, 0),
    ] {
        bus = bus.step_by(step, speaker, datum);
        show_bus(rt, bus)?;
    }
    Ok(())
}

// ---- Setup, sense, and methods out of turn

// Nobody drives anything.
fn standing(chassis: Chassis, phase: u8, contenders: u16, granted: u8) -> Bus {
    Bus {
        phase,
        contenders,
        granted,
        ..freed(chassis)
    }
}

fn setups_and_senses(rt: &impl Print) -> io::Result<()> {
    println!(rt;
        "setup with a page code of 3: answer, then fitted, phase, granted, lines, signals"
    )?;
    let bus = show_setup(rt, [1, 2, 0, 0, 0, 0, 0, 0, 0, 0, 0, 0, 0, 0, 0, 3])?;
    print!(rt; "{:04X}", bus.fitted)?;
    show_bus(rt, bus)?;
    println!(rt;
        "sense: free, arbitration, owned; a code of 3, no such phase, an unfitted contender, none, one too early, an unfitted grant"
    )?;
    for (code, phase, contenders, granted) in [
        (2, 0, 0, NOBODY),
        (2, 1, 0x0008, NOBODY),
        (2, 4, 0, 3),
        (3, 0, 0, NOBODY),
        (2, LAST_PHASE + 1, 0, NOBODY),
        (2, 1, 0x0004, NOBODY),
        (2, 1, 0, NOBODY),
        (2, 0, 0x0008, NOBODY),
        (2, 4, 0, 2),
    ] {
        let bus = standing(chassis(0x000A, [code; 16]), phase, contenders, granted);
        print!(rt; "{:02X}", u8::from(makes_sense(bus)))?;
    }
    println!(rt; "")
}

// These cards are fitted, and memory of eight bits is on each page.
fn set_up(fitted: u16) -> Bus {
    setup(chassis(fitted, [1; 16])).unwrap_or_else(|refused| refused.left)
}

// Cards 1 and 3 are fitted, and card 3 is granted.
fn granted_three() -> Bus {
    set_up(0x000A).request(0x0008).look(3).acknowledge()
}

fn out_of_turn(rt: &impl Print) -> io::Result<()> {
    println!(rt;
        "card 3 granted; begun by 1, taken too soon, given back too soon, requested, looked, reset"
    )?;
    let granted = granted_three();
    for bus in [
        granted,
        granted.begin_transfer_one(1),
        granted.take_bus(3),
        granted.give_back(3),
        granted.request(0x0002),
        granted.look(3),
        granted.reset(),
    ] {
        show_bus(rt, bus)?;
    }
    Ok(())
}

// ---- The looks and settles that 01 marks for proof, M1 to M8

fn contending(fitted: u16, cards: u16) -> Bus {
    set_up(fitted).request(cards)
}

// The lines after these looks.
fn show_round(rt: &impl Print, bus: Bus, cards: [u8; 3]) -> io::Result<Bus> {
    let bus = cards.into_iter().fold(bus, |bus, card| bus.look(card));
    println!(rt; "{:02X}", bus.lines())?;
    Ok(bus)
}

fn four_nine_ten(rt: &impl Print) -> io::Result<()> {
    println!(rt;
        "4, 9 and 10 contend: lines after each round; phase and granted after an acknowledge, behind the third and the fourth"
    )?;
    let mut bus = contending(0xFFFF, 0x0610);
    for round in [[4, 9, 10], [9, 10, 4], [9, 10, 4]] {
        bus = show_round(rt, bus, round)?;
    }
    let early = bus.acknowledge();
    show_row(rt, &[early.phase, early.granted])?;
    let granted = show_round(rt, bus, [9, 10, 4])?.acknowledge();
    show_row(rt, &[granted.phase, granted.granted])
}

// Answer, looks, lines.
fn show_settle(rt: &impl Print, given: Bus, cards: &[u8]) -> io::Result<()> {
    let (answer, settled) = match settle(given, cards) {
        Ok(settled) => (ACCEPTED, settled),
        Err(refused) => (refused.refusal.into(), refused.left),
    };
    let Settled { bus, looks } = settled;
    println!(rt; "{answer:02X}{looks:02X}{:02X}", bus.lines())
}

fn settles(rt: &impl Print) -> io::Result<()> {
    println!(rt; "settle: answer, looks, lines")?;
    let sixteen = contending(0xFFFF, 0x0610);
    let rounds = [4, 9, 10, 9, 10, 4, 9, 10, 4, 9, 10, 4];
    show_settle(rt, sixteen, &rounds)?;
    show_settle(rt, sixteen, &rounds[..9])?;
    show_settle(rt, contending(0x0001, 0x0001), &[0])?;
    show_settle(rt, contending(0x0002, 0x0002), &[1])
}

// Card 0's lines are at 0, and it is granted all the same. The others are refused: 02, 03, 05, 06 and 07, with the state as it was.
fn refused_settles(rt: &impl Print) -> io::Result<()> {
    println!(rt; "card 0 alone, acknowledged; then settle refused")?;
    show_bus(rt, contending(0x0001, 0x0001).acknowledge())?;
    let senseless = standing(chassis(0x0003, [3; 16]), 1, 0x0002, NOBODY);
    let one = contending(0x0003, 0x0002);
    show_settle(rt, senseless, &[16])?;
    show_settle(rt, one, &[2, 16])?;
    show_settle(rt, one, &[1, 2])?;
    show_settle(rt, granted_three(), &[1])?;
    show_settle(rt, one, &[1, 0])
}

// ---- Bytes, and words over pages of either width

// Cycles and datum; 0 and 0 where nothing was moved.
fn show_moved(rt: &impl Print, moved: Option<Moved>) -> io::Result<()> {
    let (cycles, datum) = moved.map_or((0, 0), |moved| (moved.cycles, moved.datum));
    println!(rt; "{cycles:02X}{datum:04X}")
}

const EIGHT_BITS: Slave = Slave {
    code: EIGHT_BIT_PAGE,
};

const SIXTEEN_BITS: Slave = Slave {
    code: SIXTEEN_BIT_PAGE,
};

fn bytes(rt: &impl Print) -> io::Result<()> {
    println!(rt;
        "bytes: 56 written at 3 and read there, beyond the end; a word at an odd address, and at the last byte"
    )?;
    let mut m = [0xEE; 5];
    show_moved(rt, moving::byte_write(&mut m, 3, 0x56))?;
    show_moved(rt, moving::byte_read(&m, 3))?;
    show_moved(rt, moving::byte_read(&m, 5))?;
    show_moved(rt, moving::word_write(&mut m, 1, 0x1234, SIXTEEN_BITS))?;
    show_moved(rt, moving::word_read(&m, 4, EIGHT_BITS))?;
    show_row(rt, &m[1..])
}

// 1234 written at 2 among six bytes of EE, which are then read back: as bytes, and as a word over either page.
fn words(rt: &impl Print) -> io::Result<()> {
    println!(rt;
        "a word at 2: cycles and datum written, bytes 1 to 4, cycles and datum read over eight and sixteen bits"
    )?;
    for slave in [EIGHT_BITS, SIXTEEN_BITS] {
        let mut m = [0xEE; 6];
        show_moved(rt, moving::word_write(&mut m, 2, 0x1234, slave))?;
        show_row(rt, &m[1..5])?;
        show_moved(rt, moving::word_read(&m, 2, EIGHT_BITS))?;
        show_moved(rt, moving::word_read(&m, 2, SIXTEEN_BITS))?;
    }
    Ok(())
}
