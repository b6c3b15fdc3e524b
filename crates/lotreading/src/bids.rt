// The bids of a bidder: sets and prices, joined by `or`. The reader and the number of pieces stand apart: a struct of both
// would have to say in each contract that the number stays.
ghost use Rattle.std.specs.Prelude.{◌≡◌};
ghost use Rattle.bundles.specs.Offers.{all_meant, meant};
ghost use Rattle.bundles.specs.Rows.{held};
ghost use Rattle.lotreading.specs.Lots.{bid as bid_in, bidder as bidder_in, bids as bids_in, joined, other_bid, set_of};
ghost use Rattle.lotreading.specs.Readers.{finds, finds_as};

use crate::expected::Expected;
use crate::parts::{at_blank, blanks, gap, ranged};
use crate::pieces::PieceCount;
use bundles::{Bid, Bundle, HIGHEST_PRICE, Row};
use reading::{Reader, larger, piece};

// A bidder's bids, or `nothing`, where a lot has so many pieces.
pub fn bidder(reader: &mut Reader<'_>, pieces: PieceCount) -> Result<Row, Expected>
    ensures { finds_as (λ row. all_meant (held row)) result reader.new ≡ bidder_in pieces reader.old }
{
    if reader.at(b'n') {
        reader.spelt(b"nothing").map_err(|_| Expected::Bidder)?;
        return Ok(Row::new());
    }
    reader.piece().ok_or(Expected::Bidder)?;
    bids(reader, pieces)
}

// One bid or more.
#[tactic(auto, using(crate::proofs::Several::several_steps))]
fn bids(reader: &mut Reader<'_>, pieces: PieceCount) -> Result<Row, Expected>
    ensures { finds_as (λ row. all_meant (held row)) result reader.new ≡ bids_in pieces reader.old }
{
    let mut row = Row::new();
    loop {
        row.add(bid(reader, pieces)?);
        if !another(reader, !row.is_full())? {
            return Ok(row);
        }
    }
}

// Goes over `or` and the blanks around it, if another bid follows, which it may or may not.
fn another(reader: &mut Reader<'_>, may: bool) -> Result<bool, Expected>
    ensures { finds result reader.new ≡ other_bid may reader.old }
{
    if !at_blank(reader) {
        return Ok(false);
    }
    blanks(reader);
    if !reader.at(b'o') {
        return Ok(false);
    }
    if !may {
        return Err(Expected::SixteenBids);
    }
    reader.spelt(b"or").map_err(|_| Expected::OrOrEnd)?;
    gap(reader).map_err(|_| Expected::SetBehindOr)?;
    Ok(true)
}

// A set and a price.
fn bid(reader: &mut Reader<'_>, pieces: PieceCount) -> Result<Bid, Expected>
    ensures { finds_as meant result reader.new ≡ bid_in pieces reader.old }
{
    let mask = set(reader, pieces)?;
    gap(reader).map_err(|_| Expected::PriceBehindSet)?;
    let price = ranged(reader, 1..=HIGHEST_PRICE).map_err(|_| Expected::Price)?;
    Ok(Bid {
        on: Bundle { mask },
        price,
    })
}

// One piece or more. A closure calls `piece`, since a function of a crate of this repository can't be passed by its name
// (`specs.contracts.fields.piece`: it has no file).
fn set(reader: &mut Reader<'_>, pieces: PieceCount) -> Result<u16, Expected>
    ensures { finds result reader.new ≡ set_of pieces reader.old }
{
    reader.run(
        0,
        Expected::Set,
        |byte| piece(byte),
        |mask, piece| with_piece(pieces, mask, piece),
    )
}

// The set with a piece more, if the lot has it and the set does not have it yet.
fn with_piece(pieces: PieceCount, mask: u16, piece: u8) -> Result<u16, Expected>
    ensures { result ≡ joined pieces mask piece }
{
    if u32::from(piece) >= pieces.count() {
        return Err(Expected::PieceOfLot);
    }
    larger(mask, piece).ok_or(Expected::PieceOnce)
}
