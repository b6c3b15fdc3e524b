// Bids that can't matter: of one bidder, one as dear or dearer on no other pieces stands elsewhere.
ghost use Rattle.std.specs.Prelude.{◌≡◌, ◌≤◌, length};
ghost use Rattle.auction.specs.Faster.{Kept, covers};
ghost use Rattle.bundles.specs.Offers.{all_meant, meant};
ghost use Rattle.bundles.specs.Rows.{held};
ghost use Rattle.settling.specs.Covers.{covered};

use bundles::{Bid, Row};

// The bids of a row that matter: gone through from the last to the first and back, so that each is held against those before it and those behind it.
pub fn matter(row: &Row) -> Row
    ensures { Kept (all_meant (held result)) (all_meant (held row.now)) }
{
    let back = uncovered(row.as_slice());
    uncovered(back.as_slice())
}

// These bids but for those that one behind covers, from the last to the first.
fn uncovered(bids: &[Bid]) -> Row
    requires { length bids.now ≤ 16 }
    ensures { Kept (all_meant (held result)) (all_meant bids.now) }
{
    let mut left = Row::new();
    for bid in bids.iter().rev() {
        if !is_covered(*bid, left.as_slice()) {
            left.add(*bid);
        }
    }
    left
}

// Does one of these cover the bid?
fn is_covered(bid: Bid, by: &[Bid]) -> bool
    ensures { result ≡ covered (meant bid) (all_meant by.now) }
{
    by.iter().any(|other| is_cover(*other, bid))
}

fn is_cover(bid: Bid, other: Bid) -> bool
    ensures { result ≡ covers (meant bid) (meant other) }
{
    bid.on.is_within(other.on) && other.price <= bid.price
}
