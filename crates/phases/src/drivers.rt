// Who drives a group of lines, by name, with the codes that 01 gives it in "State and phases".
ghost use Rattle.std.specs.Prelude.{◌≡◌};
ghost use Rattle.phases.specs.Drivers.{number_of_driver};

// In the order of their numbers, from 0 on.
#[derive(Clone, Copy, PartialEq, Eq)]
pub enum Driver {
    Nobody,
    PermanentMaster,
    Card,
    Both,
}

impl From<Driver> for u8 {
    ghost from_gives = { λ driver number. number ≡ number_of_driver driver };

    fn from(driver: Driver) -> u8 {
        driver as u8
    }
}
