// May a lot be opened?
ghost use Rattle.auction.specs.House.{opens};
ghost use Rattle.rules.specs.Checks.{Opens, Refuses};
ghost use Rattle.std.specs.Result.{MatchResult};

use crate::turned::Turned;
use bundles::MOST_PIECES;
use ledger::{Header, TICKS, stands};
use wire::Refusal;

// The header, whose count is where the lot goes.
pub fn may_open(memory: &[u32], pieces: u32, until: u32) -> Result<Header, Turned>
    ensures { MatchResult result (λ h. Opens memory.now pieces until h) (λ t. Refuses memory.now (opens pieces until) t) }
{
    let header = stands(memory).ok_or(Refusal::NoHouse)?;
    if !(1..=MOST_PIECES).contains(&pieces) || until >= TICKS {
        return Err(Refusal::OutOfRange.into());
    }
    if until <= header.now {
        return Err(Refusal::NotLater.into());
    }
    if header.count >= header.limits.lots {
        return Err(Refusal::AboveLimits.into());
    }
    Ok(header)
}
