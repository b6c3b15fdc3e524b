// May a lot be told of?
ghost use Rattle.auction.specs.House.{lot_is};
ghost use Rattle.rules.specs.Checks.{Refuses, Tells};
ghost use Rattle.std.specs.Result.{MatchResult};

use crate::turned::Turned;
use ledger::{Lot, lot_of, stands};
use wire::Refusal;

// The lot.
pub fn may_tell(memory: &[u32], lot: u32) -> Result<Lot, Turned>
    ensures { MatchResult result (λ l. Tells memory.now lot l) (λ t. Refuses memory.now (lot_is lot) t) }
{
    let header = stands(memory).ok_or(Refusal::NoHouse)?;
    if lot >= header.count {
        return Err(Refusal::NoSuchLot.into());
    }
    Ok(lot_of(memory, lot))
}
