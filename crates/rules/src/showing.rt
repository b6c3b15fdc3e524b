// May a bidder's own bids on a lot be shown?
ghost use Rattle.auction.specs.House.{my_bids};
ghost use Rattle.rules.specs.Checks.{Refuses, Shows};
ghost use Rattle.std.specs.Result.{MatchResult};

use crate::turned::Turned;
use ledger::{Header, RowPlace, stands};
use wire::Refusal;

// The header, and where the bids are.
#[derive(Clone, Copy, Debug, PartialEq, Eq)]
pub struct Showing {
    pub header: Header,
    pub place: RowPlace,
}

pub fn may_show(memory: &[u32], lot: u32, bidder: u32) -> Result<Showing, Turned>
    ensures { MatchResult result (λ s. Shows memory.now lot bidder s) (λ t. Refuses memory.now (my_bids lot bidder) t) }
{
    let header = stands(memory).ok_or(Refusal::NoHouse)?;
    if bidder >= header.limits.bidders {
        return Err(Refusal::OutOfRange.into());
    }
    if lot >= header.count {
        return Err(Refusal::NoSuchLot.into());
    }
    let place = RowPlace {
        limits: header.limits,
        lot,
        bidder,
    };
    Ok(Showing { header, place })
}
