// Sets of cards, and one card at the priority lines. The state of the bus is no part of it.
#![tactic(auto)]

ghost use Rattle.std.specs.Prelude.{◌≡◌, cond, not, ◌||◌, eqb};
ghost use Rattle.lines.specs.Look.{look};
ghost use Rattle.cards.specs.Cards.{card_in, some_card, is_within};

mod lists;

pub use lists::{all_at_most, all_in};

// ---- Sets: a number with bit n for card n

pub fn card_in(cards: u16, n: u8) -> bool
    ensures { result ≡ card_in cards n }
{
    n < 16 && (cards >> n) % 2 == 1
}

pub fn some_card(cards: u16) -> bool
    ensures { result ≡ some_card cards }
{
    cards != 0
}

pub fn is_within(cards: u16, others: u16) -> bool
    ensures { result ≡ is_within cards others }
{
    (cards | others) == others
}

// What counts of a card's value: all of it if the card is in the set, else nothing.
pub fn counted(cards: u16, n: u8, value: u8) -> u8
    ensures { result ≡ cond (card_in cards n) value 0 }
{
    if card_in(cards, n) { value } else { 0 }
}

// ---- Looks

// What a card of this number drives once it has looked at these lines.
#[tactic(auto, using(crate::proofs::PlaceLaws::one_place_down))]
pub fn look_at(number: u8, lines: u8) -> u8
    ensures { result ≡ look 4 number lines }
{
    let mut driven: u8 = 0;
    for place in (0..4u8).rev() {
        if (number >> place) % 2 == 1 {
            driven += 1 << place;
        } else if (lines >> place) % 2 == 1 {
            return driven;
        }
    }
    driven
}

// Whether a card of this level would go on driving it after a look; one that doesn't contend would, since it can't look.
pub fn stays(contenders: u16, n: u8, level: u8, lines: u8) -> bool
    ensures { result ≡ (not (card_in contenders n) || eqb (look 4 n lines) level) }
{
    !card_in(contenders, n) | (look_at(n, lines) == level)
}
