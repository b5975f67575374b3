// What the cards and the permanent master do to the bus, a method each. Where its step may not be taken, a method hands the state back as given;
// whether the state makes sense is for the caller to ask.
ghost use Rattle.std.specs.Prelude.{◌≡◌};
ghost use Rattle.phases.specs.Phases.{number_of_phase};
ghost use Rattle.bus.specs.Steps.{
  may_request,
  requested,
  may_look,
  looked_by,
  may_acknowledge,
  acknowledged,
  may_transfer,
  transferred,
  transfer_one_begun,
  bus_taken,
  transfer_two_begun,
  given_back,
  reset_to,
};

use crate::numbers::*;
use crate::state::Bus;
use cards::{card_in, is_within, look_at, some_card};
use phases::Phase;

impl Bus {
    // These cards ask for the bus together.
    pub fn request(mut self, cards: u16) -> Bus
        ensures { result ≡ requested self cards }
    {
        if self.may_request(cards) {
            self.phase = Phase::Arbitration.into();
            self.contenders = cards;
            self.driven = [0; 16];
        }
        self
    }

    fn may_request(self, cards: u16) -> bool
        ensures { result ≡ may_request self cards }
    {
        self.is_in(Phase::Free) && some_card(cards) && is_within(cards, self.fitted)
    }

    // A contender looks at the lines, and sets what it drives.
    #[tactic(auto, unfolding(lines::specs::Arbitration::looked))]
    pub fn look(mut self, card: u8) -> Bus
        ensures { result ≡ looked_by self card }
    {
        if self.may_look(card) {
            self.driven[usize::from(card)] = look_at(card, self.lines());
        }
        self
    }

    fn may_look(self, card: u8) -> bool
        ensures { result ≡ may_look self card }
    {
        self.is_in(Phase::Arbitration) && card_in(self.contenders, card)
    }

    // The permanent master answers HOLD, and the bus goes to the card that the settled lines name.
    pub fn acknowledge(mut self) -> Bus
        ensures { result ≡ acknowledged self }
    {
        if self.may_acknowledge() {
            self.granted = self.lines();
            self.phase = Phase::Granted.into();
            self.contenders = 0; // the others go idle
            self.driven = [0; 16];
        }
        self
    }

    fn may_acknowledge(self) -> bool
        ensures { result ≡ may_acknowledge self }
    {
        self.is_in(Phase::Arbitration) && some_card(self.contenders) && self.is_settled()
    }

    pub fn begin_transfer_one(self, card: u8) -> Bus
        ensures { result ≡ transfer_one_begun self card }
    {
        self.transfer(Phase::Granted, Phase::TransferOne, card)
    }

    pub fn take_bus(self, card: u8) -> Bus
        ensures { result ≡ bus_taken self card }
    {
        self.transfer(Phase::TransferOne, Phase::Owned, card)
    }

    pub fn begin_transfer_two(self, card: u8) -> Bus
        ensures { result ≡ transfer_two_begun self card }
    {
        self.transfer(Phase::Owned, Phase::TransferTwo, card)
    }

    pub fn give_back(mut self, card: u8) -> Bus
        ensures { result ≡ given_back self card }
    {
        if self.may_transfer(Phase::TransferTwo, card) {
            self.phase = Phase::Free.into(); // pHLDA falls with it (house)
            self.granted = NOBODY;
        }
        self
    }

    // The granted card leads from one phase to another.
    fn transfer(mut self, from: Phase, to: Phase, card: u8) -> Bus
        ensures { result ≡ transferred self (number_of_phase from) (number_of_phase to) card }
    {
        if self.may_transfer(from, card) {
            self.phase = to.into();
        }
        self
    }

    fn may_transfer(self, from: Phase, card: u8) -> bool
        ensures { result ≡ may_transfer self (number_of_phase from) card }
    {
        self.is_in(from) && self.granted == card
    }

    // Fitted cards and pages stay; contention and grant end.
    pub fn reset(mut self) -> Bus
        ensures { result ≡ reset_to self }
    {
        self.phase = Phase::Free.into();
        self.contenders = 0;
        self.driven = [0; 16];
        self.granted = NOBODY;
        self
    }
}
