// A whole lot: its pieces, a colon, and the bidders, parted by `;`.
ghost use Rattle.std.specs.Prelude.{◌≡◌, ◌≤◌, length};
ghost use Rattle.bundles.specs.Offers.{all_meant};
ghost use Rattle.bundles.specs.Rows.{all_held, held};
ghost use Rattle.lotreading.specs.Lots.{behind_bidder, front as front_in, lot as lot_in, other_bidder, bidders as bidders_in};
ghost use Rattle.lotreading.specs.Readers.{finds, finds_as};
ghost use Rattle.lotreading.specs.Values.{lot_of};

use crate::bids::bidder;
use crate::expected::Expected;
use crate::parts::{blanks, ranged};
use crate::pieces::PieceCount;
use crate::{Bidders, Lot};
use bundles::{MOST_PIECES, Row};
use reading::Reader;

#[tactic(auto, using(crate::proofs::Shorter::lot_left))]
pub fn lot(reader: &mut Reader<'_>) -> Result<Lot, Expected>
    ensures read { finds_as lot_of result reader.new ≡ lot_in reader.old }
    ensures left { length reader.new ≤ length reader.old }
{
    let pieces = front(reader)?;
    let bidders = bidders(reader, pieces)?;
    Ok(Lot {
        pieces: pieces.count(),
        bidders,
    })
}

// How many pieces, and a colon.
fn front(reader: &mut Reader<'_>) -> Result<PieceCount, Expected>
    ensures { finds result reader.new ≡ front_in reader.old }
{
    blanks(reader);
    let pieces = ranged(reader, 1..=MOST_PIECES).map_err(|_| Expected::Pieces)?;
    blanks(reader);
    reader.byte(b':').map_err(|_| Expected::Colon)?;
    blanks(reader);
    Ok(PieceCount::new(pieces))
}

// One bidder or more, to the end. One function for this loop and that over bids, with a closure that reads a thing and one
// that goes over what parts two, was tried: its contract is about any type X of what a thing means, and a clause can't be
// (`expected type Type 0, but this has type Type 1`). A trait that names that type would be longer than a loop.
#[tactic(auto, using(crate::proofs::Several::several_steps))]
fn bidders(reader: &mut Reader<'_>, pieces: PieceCount) -> Result<Bidders, Expected>
    ensures { finds_as (λ b. all_held (held b)) result reader.new ≡ bidders_in pieces reader.old }
{
    let mut bidders = Bidders::new();
    loop {
        let row = bidder(reader, pieces)?;
        bidders.add(row);
        if !another(reader, !bidders.is_full(), row)? {
            return Ok(bidders);
        }
    }
}

// Goes over `;` and the blanks around it, if another bidder follows, which it may or may not; else the text ends.
fn another(reader: &mut Reader<'_>, may: bool, row: Row) -> Result<bool, Expected>
    ensures { finds result reader.new ≡ other_bidder may (all_meant (held row)) reader.old }
{
    blanks(reader);
    let Some(byte) = reader.peek() else {
        return Ok(false);
    };
    if byte != b';' {
        return Err(behind(row));
    }
    if !may {
        return Err(Expected::ThirtyTwoBidders);
    }
    reader.step();
    blanks(reader);
    Ok(true)
}

// What may follow a bidder: no `or` behind `nothing`.
fn behind(row: Row) -> Expected
    ensures { result ≡ behind_bidder (all_meant (held row)) }
{
    match row.as_slice() {
        [] => Expected::End,
        _ => Expected::OrOrEnd,
    }
}
