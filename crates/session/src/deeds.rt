// What each call does, once its check hands on what it needs; or why it is turned away.
ghost use Rattle.auction.specs.House.{lot_is, my_bids, opens, bids as bids_on, ticks as let_by};
ghost use Rattle.session.specs.Deeds.{Does};
ghost use Rattle.wire.specs.Offers.{offers};

use ledger::{Lot, add_lot, bids_of, replace_bids, set_now};
use rules::{Showing, Taking, Turned, may_bid, may_open, may_show, may_tell, may_tick};
use wire::{Answer, Bids};

pub fn open_lot(memory: &mut [u32], pieces: u32, until: u32) -> Result<Answer, Turned>
    ensures { Does memory.old (opens pieces until) memory.new result }
{
    let header = may_open(memory, pieces, until)?;
    add_lot(memory, header.count, Lot { pieces, until });
    Ok(Answer::Number(u64::from(header.count)))
}

pub fn bid(memory: &mut [u32], lot: u32, bidder: u32, bids: Bids<'_>) -> Result<Answer, Turned>
    ensures { Does memory.old (bids_on lot bidder (offers bids.entry)) memory.new result }
{
    let Taking { place, row } = may_bid(memory, lot, bidder, bids)?;
    let made = row.as_slice();
    replace_bids(memory, place, made);
    Ok(Answer::Number(made.len() as u64))
}

pub fn let_ticks_go_by(memory: &mut [u32], ticks: u32) -> Result<Answer, Turned>
    ensures { Does memory.old (let_by ticks) memory.new result }
{
    let later = may_tick(memory, ticks)?;
    set_now(memory, later);
    Ok(Answer::Number(u64::from(later)))
}

pub fn show_bids(memory: &[u32], lot: u32, bidder: u32) -> Result<Answer, Turned>
    ensures { Does memory.now (my_bids lot bidder) memory.now result }
{
    let Showing { place, .. } = may_show(memory, lot, bidder)?;
    Ok(Answer::Bids(bids_of(memory, place)))
}

pub fn tell_of_lot(memory: &[u32], lot: u32) -> Result<Answer, Turned>
    ensures { Does memory.now (lot_is lot) memory.now result }
{
    let told = may_tell(memory, lot)?;
    Ok(Answer::Two(u64::from(told.pieces), u64::from(told.until)))
}
