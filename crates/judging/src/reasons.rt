// The reasons to refuse an event that go by more than its kind and the phase.
ghost use Rattle.std.specs.Prelude.{◌≡◌};
ghost use Rattle.phases.specs.Kinds.{number_of_kind};
ghost use Rattle.judgement.specs.Refusals.{has_stray_field, is_too_wide, is_malformed, names_nobody, names_unfitted, page_at, is_odd_word, is_absent};

use crate::columns::{lists_address, lists_speaker, most_datum};
use cards::{card_in, is_within, some_card};
use judgement::{Event, PERMANENT_MASTER};
use phases::Kind;

// An event of a kind that there is.
#[derive(Clone, Copy)]
pub struct KnownEvent {
    pub kind: Kind,
    pub event: Event,
    ghost named: { event.kind ≡ number_of_kind kind },
}

impl KnownEvent {
    // 03
    #[tactic(auto, using(crate::proofs::KindLaws::each_has_row))]
    pub fn is_malformed(self) -> bool
        ensures { result ≡ is_malformed self.event }
    {
        PERMANENT_MASTER < self.event.speaker || self.has_stray_field() || self.is_too_wide()
    }

    fn has_stray_field(self) -> bool
        ensures { result ≡ has_stray_field self.event }
    {
        !lists_speaker(self.kind) && self.event.speaker != 0
            || !lists_address(self.kind) && self.event.address != 0
    }

    fn is_too_wide(self) -> bool
        ensures { result ≡ is_too_wide self.event }
    {
        most_datum(self.kind) < self.event.datum
    }

    // 04
    pub fn names_nobody(self) -> bool
        ensures { result ≡ names_nobody self.event }
    {
        self.kind == Kind::Request && !some_card(self.event.datum)
    }

    // 05
    pub fn names_unfitted(self, fitted: u16) -> bool
        ensures { result ≡ names_unfitted fitted self.event }
    {
        lists_speaker(self.kind) && self.event.speaker <= 15 && !card_in(fitted, self.event.speaker)
            || self.kind == Kind::Request && !is_within(self.event.datum, fitted)
    }

    // 09
    pub fn is_odd_word(self) -> bool
        ensures { result ≡ is_odd_word self.event }
    {
        self.kind.is_word() && self.event.address % 2 != 0
    }

    // 0A
    pub fn is_absent(self, pages: [u8; 16]) -> bool
        ensures { result ≡ is_absent pages self.event }
    {
        let address = self.event.address;
        self.kind.is_of_memory() && (0xFFFF < address || page_at(pages, address) == 0)
            || self.kind.is_of_ports() && 0xFF < address
    }
}

// The code of the page that an address lies in; beyond the sixteen pages there is none, as on an absent one.
pub fn page_at(pages: [u8; 16], address: u32) -> u8
    ensures { result ≡ page_at pages address }
{
    if address <= 0xFFFF {
        pages[(address / 0x1000) as usize]
    } else {
        0
    }
}
