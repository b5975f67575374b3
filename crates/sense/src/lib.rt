// Whether a state makes sense, and the setup that begins with one that does.
#![tactic(auto)]

ghost use Rattle.std.specs.Prelude.{◌≡◌};
ghost use Rattle.bus.specs.Sense.{codes_known, contention_fits, driving_fits, grant_fits, standing_fits, makes_sense};
ghost use Rattle.bus.specs.State.{free_bus};
ghost use Rattle.bus.specs.Setup.{setup_of};
ghost use Rattle.bus.specs.Told.{set_up};

use bus::numbers::*;
use bus::{Bus, Chassis, EMPTY_CHASSIS, Refusal, Refused};
use cards::{all_at_most, card_in, counted, is_within, some_card};
use phases::Phase;

// The bus that comes with a refusal is that of an empty chassis.
pub fn setup(chassis: Chassis) -> Result<Bus, Refused<Bus>>
    ensures { set_up result ≡ setup_of chassis }
{
    if codes_known(chassis) {
        Ok(freed(chassis))
    } else {
        Err(Refused {
            refusal: Refusal::BadPage,
            left: freed(EMPTY_CHASSIS),
        })
    }
}

// A free bus with this chassis.
pub fn freed(chassis: Chassis) -> Bus
    ensures { result ≡ free_bus chassis }
{
    let Chassis { fitted, pages } = chassis;
    Bus {
        fitted,
        pages,
        phase: Phase::Free.into(),
        contenders: 0,
        driven: [0; 16],
        granted: NOBODY,
    }
}

fn codes_known(chassis: Chassis) -> bool
    ensures { result ≡ codes_known chassis }
{
    all_at_most(2, &chassis.pages)
}

pub fn makes_sense(bus: Bus) -> bool
    ensures { result ≡ makes_sense bus }
{
    codes_known(bus.chassis()) && standing_fits(bus)
}

#[tactic(auto, unfolding(bus::specs::Sense::standing_fits))]
fn standing_fits(bus: Bus) -> bool
    ensures { result ≡ standing_fits bus }
{
    Phase::try_from(bus.phase).is_ok()
        && contention_fits(bus)
        && driving_fits(bus.contenders, bus.driven)
        && grant_fits(bus)
}

fn contention_fits(bus: Bus) -> bool
    ensures { result ≡ contention_fits bus }
{
    is_within(bus.contenders, bus.fitted)
        && some_card(bus.contenders) == bus.is_in(Phase::Arbitration)
}

fn grant_fits(bus: Bus) -> bool
    ensures { result ≡ grant_fits bus }
{
    match Phase::try_from(bus.phase) {
        Ok(Phase::Granted | Phase::TransferOne | Phase::Owned | Phase::TransferTwo) => {
            card_in(bus.fitted, bus.granted)
        }
        _ => bus.granted == NOBODY,
    }
}

// The other cards drive nothing, and the contenders no more than four lines show.
fn driving_fits(contenders: u16, driven: [u8; 16]) -> bool
    ensures { result ≡ driving_fits contenders driven }
{
    (0..16).zip(&driven).fold(
        true,
        |fits, (n, &level)| fits & (level <= counted(contenders, n, 15)),
    )
}
