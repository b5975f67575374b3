// The columns of the event table: what goes by the kind alone.
ghost use Rattle.std.specs.Prelude.{◌≡◌};
ghost use Rattle.phases.specs.Kinds.{number_of_kind};
ghost use Rattle.judgement.specs.Table.{lists_speaker, lists_address, most_datum};

use phases::Kind;

#[tactic(auto, unfolding(words::specs::Among::beside))]
pub fn lists_speaker(kind: Kind) -> bool
    ensures { result ≡ lists_speaker (number_of_kind kind) }
{
    !matches!(kind, Kind::Request | Kind::Acknowledge | Kind::Reset)
}

#[tactic(auto, unfolding(words::specs::Among::beside))]
pub fn lists_address(kind: Kind) -> bool
    ensures { result ≡ lists_address (number_of_kind kind) }
{
    kind.is_cycle()
}

// The most that the datum may be; 0 where none is listed.
#[tactic(auto, unfolding(words::specs::Among::beside))]
pub fn most_datum(kind: Kind) -> u16
    ensures { result ≡ most_datum (number_of_kind kind) }
{
    match kind {
        Kind::Request | Kind::WordWrite => 0xFFFF,
        Kind::ByteWrite | Kind::Output => 0xFF,
        _ => 0,
    }
}
