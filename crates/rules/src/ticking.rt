// May so many ticks go by?
ghost use Rattle.rules.specs.Checks.{Refuses, Ticks};
ghost use Rattle.auction.specs.House.{ticks as let_by};
ghost use Rattle.std.specs.Result.{MatchResult};

use crate::turned::Turned;
use ledger::{TICKS, stands};
use wire::Refusal;

// No more ticks go by in one call.
const MOST_TICKS: u32 = 65_536;

// The time after them.
pub fn may_tick(memory: &[u32], ticks: u32) -> Result<u32, Turned>
    ensures { MatchResult result (λ t. Ticks memory.now ticks t) (λ t. Refuses memory.now (let_by ticks) t) }
{
    let header = stands(memory).ok_or(Refusal::NoHouse)?;
    if !(1..=MOST_TICKS).contains(&ticks) {
        return Err(Refusal::OutOfRange.into());
    }
    let later = header.now + ticks;
    if later >= TICKS {
        return Err(Refusal::AboveLimits.into());
    }
    Ok(later)
}
