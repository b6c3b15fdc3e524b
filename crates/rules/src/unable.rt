// Calls that are always turned away: bytes that are no call, and calls that this stage can't do.
ghost use Rattle.std.specs.Prelude.{ℕ};
ghost use Rattle.auction.specs.House.{brings, garbled, result as result_for};
ghost use Rattle.rules.specs.Checks.{Refuses};

use crate::turned::Turned;
use ledger::stands;
use wire::Refusal;

// Bytes that cease to be a call at a place.
pub fn unreadable(memory: &[u32], place: usize) -> Turned
    ensures { Refuses memory.now (garbled place) result }
{
    stands(memory).map_or(
        Refusal::NoHouse.into(),
        |_| Turned {
            refusal: Refusal::Unreadable,
            place: place as u64,
        },
    )
}

// A lot's result, or what it brings, of whichever lot and bidder.
pub fn not_yet(memory: &[u32]) -> Turned
    ensures result { (k b : ℕ) → Refuses memory.now (result_for k b) result }
    ensures brings { (k : ℕ) → Refuses memory.now (brings k) result }
{
    stands(memory)
        .map_or(Refusal::NoHouse, |_| Refusal::OutOfRange)
        .into()
}
