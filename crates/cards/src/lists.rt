// What is asked of every number in a list. All are asked, without a branch on what is found, so that many are asked at once.
ghost use Rattle.std.specs.Prelude.{◌≡◌, leb};
ghost use Rattle.words.specs.Among.{every_listed};
ghost use Rattle.cards.specs.Cards.{cards_within};

use crate::card_in;

pub fn all_at_most(most: u8, numbers: &[u8]) -> bool
    ensures { result ≡ every_listed (λ number. leb number most) numbers.now }
{
    numbers
        .iter()
        .fold(true, |all, &number| all & (number <= most))
}

// Numbers above 15 are no cards, and not asked about.
pub fn all_in(set: u16, cards: &[u8]) -> bool
    ensures { result ≡ cards_within set cards.now }
{
    cards.iter().fold(true, |all, &card| all & ((15 < card) | card_in(set, card)))
}
