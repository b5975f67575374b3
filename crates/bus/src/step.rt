// The steps that events take, and what each does to the bus.
ghost use Rattle.std.specs.Prelude.{◌≡◌};
ghost use Rattle.bus.specs.Step.{step_by};

use crate::state::Bus;

// Kept: an enum and no closure, since a judgement hands a step on, and `step_by` and `judging` each go by it.
#[derive(Clone, Copy)]
pub enum Step {
    Request,
    Look,
    Acknowledge,
    BeginTransferOne,
    TakeBus,
    Cycle,
    BeginTransferTwo,
    GiveBack,
    Reset,
}

impl Bus {
    // A cycle leaves the bus as it is.
    pub fn step_by(self, step: Step, speaker: u8, datum: u16) -> Bus
        ensures { result ≡ step_by step self speaker datum }
    {
        match step {
            Step::Request => self.request(datum),
            Step::Look => self.look(speaker),
            Step::Acknowledge => self.acknowledge(),
            Step::BeginTransferOne => self.begin_transfer_one(speaker),
            Step::TakeBus => self.take_bus(speaker),
            Step::Cycle => self,
            Step::BeginTransferTwo => self.begin_transfer_two(speaker),
            Step::GiveBack => self.give_back(speaker),
            Step::Reset => self.reset(),
        }
    }
}
