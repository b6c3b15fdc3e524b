// The pieces that a group of bidders wants, moved together, so that its tables are no larger than they have to be.
ghost use Rattle.std.specs.Prelude.{◌≡◌, false, slice_index_or};
ghost use Rattle.auction.specs.Bids.{pick};
ghost use Rattle.bundles.specs.Masks.{bits};
ghost use Rattle.bundles.specs.Rows.{held};
ghost use Rattle.settling.specs.Packs.{packed_bids, packed_mask, packed_one, places_in};

use bundles::{Bid, Bundle, MOST_PIECES, Row};

// The pieces of a set that stand at these places, the lowest first.
pub fn pack(set: Bundle, places: Bundle) -> Bundle
    ensures { result.mask ≡ packed_mask places.mask set.mask }
{
    let mut mask = 0;
    // A range of pieces, not the places of a slice; as a fold it is the same two lines in a closure.
    for piece in (0..MOST_PIECES).rev() {
        if places.has(piece) {
            mask = 2 * mask + u16::from(set.has(piece));
        }
    }
    Bundle { mask }
}

// How many places there are.
pub fn how_many(places: Bundle) -> u32
    ensures { result ≡ places_in places.mask }
{
    places.mask.count_ones()
}

// A bidder's bids, each on the pieces at these places.
pub fn pack_row(row: &Row, places: Bundle) -> Row
    ensures { held result ≡ packed_bids places.mask (held row.now) }
{
    let mut packed = Row::new();
    for bid in row.as_slice() {
        packed.add(pack_bid(*bid, places));
    }
    packed
}

fn pack_bid(bid: Bid, places: Bundle) -> Bid
    ensures { result ≡ packed_one places.mask bid }
{
    Bid {
        on: pack(bid.on, places),
        price: bid.price,
    }
}
