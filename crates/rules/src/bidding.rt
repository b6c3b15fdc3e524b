// May a bidder's bids on a lot be replaced?
ghost use Rattle.auction.specs.House.{bids as bids_on};
ghost use Rattle.rules.specs.Checks.{Refuses, Takes};
ghost use Rattle.std.specs.Result.{MatchResult};
ghost use Rattle.wire.specs.Offers.{offers};

use crate::fine::{all_fit, row_of};
use crate::turned::Turned;
use bundles::Row;
use ledger::{RowPlace, lot_of, stands};
use wire::{Bids, Refusal};

// The bids that are taken, and where they belong.
#[derive(Clone, Copy, Debug, PartialEq, Eq)]
pub struct Taking {
    pub place: RowPlace,
    pub row: Row,
}

// The bids, decoded, which take the place of those before. Lot and bidder are two numbers, as in the call's variants and the written
// house's calls: a struct would be made of Call::Bid { lot, bidder, .. } only to be taken apart in RowPlace { limits, lot, bidder }.
pub fn may_bid(memory: &[u32], lot: u32, bidder: u32, bids: Bids<'_>) -> Result<Taking, Turned>
    ensures { MatchResult result (λ t. Takes memory.now lot bidder (offers bids.entry) t) (λ t. Refuses memory.now (bids_on lot bidder (offers bids.entry)) t) }
{
    let header = stands(memory).ok_or(Refusal::NoHouse)?;
    if bidder >= header.limits.bidders {
        return Err(Refusal::OutOfRange.into());
    }
    let row = row_of(bids, header.limits.each).ok_or(Refusal::OutOfRange)?;
    if lot >= header.count {
        return Err(Refusal::NoSuchLot.into());
    }
    let asked = lot_of(memory, lot);
    if header.now >= asked.until {
        return Err(Refusal::WrongTime.into());
    }
    if !all_fit(row.as_slice(), asked.pieces) {
        return Err(Refusal::NotInLot.into());
    }
    Ok(Taking {
        place: RowPlace {
            limits: header.limits,
            lot,
            bidder,
        },
        row,
    })
}
