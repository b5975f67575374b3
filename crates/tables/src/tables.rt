// What stands on the lines by phase and by kind of cycle, from constant tables: drivers, signals, status and control outputs.
ghost use Rattle.std.specs.Prelude.{◌≡◌, cond, get_or};
ghost use Rattle.phases.specs.Phase.{has_cycles};
ghost use Rattle.phases.specs.Signal.{pHLDA, is_on, signals_in};
ghost use Rattle.phases.specs.Driver.{driver_of};
ghost use Rattle.phases.specs.Drivers.{number_of_driver};
ghost use Rattle.phases.specs.Status.{status_of};
ghost use Rattle.phases.specs.Control.{strobe_of, control_in, is_mwrt};

use phases::numbers::*;
use phases::{Driver, Phase};

// What stands on the lines in a phase: who drives the address, status, data-out and control lines, and the true signals.
#[derive(Clone, Copy)]
struct PhaseRow {
    drivers: [Driver; 4],
    signals: u8,
}

const ALL_PERMANENT: [Driver; 4] = [Driver::PermanentMaster; 4];

const ALL_CARD: [Driver; 4] = [Driver::Card; 4];

const CHANGING_HANDS: [Driver; 4] = [Driver::Nobody, Driver::Nobody, Driver::Nobody, Driver::Both];

const NO_PHASE: PhaseRow = PhaseRow {
    drivers: [Driver::Nobody; 4],
    signals: 0,
};

// The disable lines that transfer one asserts together.
const DISABLED: u8 = ADSB + SDSB + DODSB;

// A row for each phase.
const PHASES: [PhaseRow; 6] = [
    PhaseRow {
        drivers: ALL_PERMANENT,
        signals: 0,
    },
    PhaseRow {
        drivers: ALL_PERMANENT,
        signals: HOLD,
    },
    PhaseRow {
        drivers: ALL_PERMANENT,
        signals: HOLD + P_HLDA,
    },
    PhaseRow {
        drivers: CHANGING_HANDS,
        signals: HOLD + P_HLDA + DISABLED,
    },
    PhaseRow {
        drivers: ALL_CARD,
        signals: HOLD + P_HLDA + DISABLED + CDSB,
    },
    PhaseRow {
        drivers: CHANGING_HANDS,
        signals: P_HLDA + DISABLED,
    },
];

// The status byte in a cycle, and its data strobe.
#[derive(Clone, Copy)]
struct KindRow {
    status: u8,
    strobe: u8,
}

const NO_CYCLE: KindRow = KindRow {
    status: 0,
    strobe: 0,
};

// A row for each kind of event up to the last cycle, and one for 00.
const KINDS: [KindRow; 13] = [
    NO_CYCLE,
    NO_CYCLE,
    NO_CYCLE,
    NO_CYCLE,
    NO_CYCLE,
    NO_CYCLE,
    KindRow {
        status: S_MEMR,
        strobe: P_DBIN,
    },
    KindRow {
        status: S_MEMR + S_M1,
        strobe: P_DBIN,
    },
    KindRow {
        status: S_WO,
        strobe: P_WR,
    },
    KindRow {
        status: S_MEMR,
        strobe: P_DBIN,
    },
    KindRow {
        status: S_WO,
        strobe: P_WR,
    },
    KindRow {
        status: S_INP,
        strobe: P_DBIN,
    },
    KindRow {
        status: S_OUT + S_WO,
        strobe: P_WR,
    },
];

// The entry of this number; beyond the table's end, the other.
fn entry<T: Copy>(table: &[T], number: u8, beyond: T) -> T
    ensures { result ≡ get_or table.now number beyond }
{
    table.get(usize::from(number)).copied().unwrap_or(beyond)
}

// Who drives a group of lines in a phase; nobody, where there is no such phase or group.
#[tactic(auto, using(crate::proofs::TableRules::driver_entry))]
pub fn driver(phase: u8, group: u8) -> Driver
    ensures { number_of_driver result ≡ driver_of phase group }
{
    let row = entry(&PHASES, phase, NO_PHASE);
    entry(&row.drivers, group, Driver::Nobody)
}

// The true signals in a phase, of those that go by the phase alone.
#[tactic(auto, using(crate::proofs::TableRules::signals_entry))]
pub fn signals(phase: u8) -> u8
    ensures { result ≡ signals_in phase }
{
    entry(&PHASES, phase, NO_PHASE).signals
}

// The status lines in a cycle of this kind; none is true in an event that is no cycle.
#[tactic(auto, using(crate::proofs::TableRules::status_entry))]
pub fn status(kind: u8) -> u8
    ensures { result ≡ status_of kind }
{
    entry(&KINDS, kind, NO_CYCLE).status
}

#[tactic(auto, using(crate::proofs::TableRules::strobe_entry))]
fn strobe(kind: u8) -> u8
    ensures { result ≡ strobe_of kind }
{
    entry(&KINDS, kind, NO_CYCLE).strobe
}

// MWRT, from the control outputs and the status lines.
#[tactic(auto, using(crate::proofs::TableRules::masks_write, crate::proofs::TableRules::masks_output, crate::proofs::TableRules::write_on))]
pub fn mwrt(control: u8, status: u8) -> bool
    ensures { result ≡ is_mwrt control status }
{
    control & P_WR != 0 && status & S_OUT == 0
}

// The true control outputs in a phase, with a cycle of this kind in it; a kind that is no cycle's has no strobe.
#[tactic(auto, using(crate::proofs::TableRules::control_fits), unfolding(phases::specs::Control::control_in))]
pub fn control(phase: u8, kind: u8) -> u8
    ensures { result ≡ control_in phase kind }
{
    strobe_in(phase, kind) + hold_acknowledge(phase)
}

fn strobe_in(phase: u8, kind: u8) -> u8
    ensures { result ≡ cond (has_cycles phase) (strobe_of kind) 0 }
{
    match Phase::try_from(phase) {
        Ok(Phase::Free | Phase::Arbitration | Phase::Owned) => strobe(kind),
        _ => 0,
    }
}

#[tactic(auto, using(crate::proofs::TableRules::masks_hold_acknowledge))]
fn hold_acknowledge(phase: u8) -> u8
    ensures { result ≡ cond (is_on pHLDA (signals_in phase)) pHLDA 0 }
{
    signals(phase) & P_HLDA
}
