// A bidder's row of bids on a lot, as a part of the lent memory: read by value, and written at once in place of the one before.
ghost use Rattle.std.specs.Prelude.{◌≡◌, ◌+◌, ◌*◌, ◌<◌, ◌≤◌, length, slice_set};
ghost use Rattle.bundles.specs.Masks.{mask_of};
ghost use Rattle.bundles.specs.Offers.{all_meant, meant};
ghost use Rattle.bundles.specs.Rows.{held};
ghost use Rattle.ledger.specs.Layout.{house_words};
ghost use Rattle.ledger.specs.Words.{bid_of, bids_at, bids_in, row_words, with_row};

use crate::layout::RowPlace;
use bundles::{Bid, Bundle, Row};

// The bids of a bidder on a lot.
pub fn bids_of(memory: &[u32], place: RowPlace) -> Row
    requires { house_words place.limits ≤ length memory.now }
    ensures { all_meant (held result) ≡ bids_at place.limits memory.now place.lot place.bidder }
{
    read_row(&memory[place.words()])
}

// Puts these bids in the place of all that the bidder had on the lot.
#[tactic(auto, using(crate::proofs::RowWords::put_row))]
pub fn replace_bids(memory: &mut [u32], place: RowPlace, bids: &[Bid])
    requires { (house_words place.limits ≤ length memory.old) × (length bids.now ≤ place.limits.each) }
    ensures { memory.new ≡ with_row place.limits memory.old place.lot place.bidder (all_meant bids.now) }
{
    write_row(&mut memory[place.words()], bids);
}

// The bids that a row of words holds, up to the first price of 0.
#[tactic(auto, using(crate::proofs::RowWords::read_all))]
pub fn read_row(words: &[u32]) -> Row
    requires { length words.now ≤ 32 }
    ensures { all_meant (held result) ≡ bids_in words.now }
{
    let mut row = Row::new();
    let (pairs, _) = words.as_chunks::<2>();
    for &[price, set] in pairs {
        if price == 0 {
            break;
        }
        row.add(bid_in(price, set));
    }
    row
}

// Makes these the bids of a row of words, and clears the words behind the last. Each pair goes by its place: tried with
// chunks_exact_mut, of which a proof knows no element once the pieces are given back.
#[tactic(auto, using(crate::proofs::RowWords::write_more), unfolding(crate::specs::Words::bid_words, crate::specs::Words::row_words))]
fn write_row(words: &mut [u32], bids: &[Bid])
    requires { 2 * length bids.now ≤ length words.old }
    ensures { words.new ≡ row_words (length words.old) (all_meant bids.now) }
{
    for (i, bid) in bids.iter().enumerate() {
        put_bid(words, 2 * i, *bid);
    }
    words[2 * bids.len()..].fill(0);
}

fn bid_in(price: u32, set: u32) -> Bid
    ensures { meant result ≡ bid_of price set }
{
    Bid {
        on: Bundle {
            // A cast may lose no bits, so those above the sixteenth are cut off first.
            mask: (set % 65536) as u16,
        },
        price,
    }
}

#[tactic(auto, using(bundles::proofs::Sets::mask_bits))]
fn put_bid(words: &mut [u32], at: usize, bid: Bid)
    requires { at + 1 < length words.old }
    ensures { words.new ≡ slice_set (slice_set words.old at bid.price) (at + 1) (mask_of (meant bid).on) }
{
    words[at] = bid.price;
    words[at + 1] = u32::from(bid.on.mask);
}
