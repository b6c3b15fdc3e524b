// The bids of a call, looked at one by one: decoded, in range, and within a lot.
ghost use Rattle.std.specs.Prelude.{◌≡◌, ◌≤◌, true, false, length, MatchOption};
ghost use Rattle.auction.specs.Bids.{all, within};
ghost use Rattle.auction.specs.House.{all_in, prices_fine};
ghost use Rattle.bundles.specs.Offers.{all_meant, meant};
ghost use Rattle.bundles.specs.Rows.{held};
ghost use Rattle.rules.specs.Fine.{Holds, all_fine, fine};
ghost use Rattle.wire.specs.Offers.{offers};

use bundles::{Bid, HIGHEST_PRICE, Row};
use wire::Bids;

// The bids as a row, if there are no more than so many, which are sixteen at most, and each is in range.
pub fn row_of(bids: Bids<'_>, most: u32) -> Option<Row>
    requires { most ≤ 16 }
    ensures { MatchOption result (all_fine most (offers bids.entry) ≡ false) (λ row. (all_fine most (offers bids.entry) ≡ true) × Holds row (offers bids.entry) × (length (held row) ≤ most)) }
{
    if bids.len() > most as usize {
        return None;
    }
    decoded(bids)
}

// Has a lot of so many pieces all that these bids ask for?
pub fn all_fit(bids: &[Bid], pieces: u32) -> bool
    ensures { result ≡ all_in (all_meant bids.now) pieces }
{
    bids.iter().all(|&bid| fits(bid, pieces))
}

// The bids as a row, if each is in range.
#[tactic(auto, unfolding(auction::specs::House::prices_fine))]
fn decoded(bids: Bids<'_>) -> Option<Row>
    requires { length (offers bids) ≤ 16 }
    ensures { MatchOption result (prices_fine (offers bids.entry) ≡ false) (λ row. (prices_fine (offers bids.entry) ≡ true) × Holds row (offers bids.entry)) }
{
    let mut row = Row::new();
    for bid in bids.iter() {
        if !is_fine(bid) {
            return None;
        }
        row.add(bid);
    }
    Some(row)
}

// Is the price in range, and the set not empty?
fn is_fine(bid: Bid) -> bool
    ensures { result ≡ fine (meant bid) }
{
    (1..=HIGHEST_PRICE).contains(&bid.price) && !bid.on.is_empty()
}

fn fits(bid: Bid, pieces: u32) -> bool
    ensures { result ≡ within (meant bid).on (all pieces) }
{
    bid.on.fits(pieces)
}
