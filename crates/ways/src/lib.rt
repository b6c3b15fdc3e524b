// The plain check of all ways to give pieces away: bidder by bidder and bid by bid, with no tables. Tests that are to come compare the solver with it.
#![tactic(auto)]

ghost use Rattle.std.specs.Prelude.{◌≡◌, ◌*◌, ◌≤◌, length};
ghost use Rattle.auction.specs.Bids.{best, less, within};
ghost use Rattle.bundles.specs.Masks.{bits};
ghost use Rattle.bundles.specs.Offers.{meant};
ghost use Rattle.bundles.specs.Rows.{all_held};
ghost use Rattle.solver.specs.Welfare.{Most};

use bundles::{Bid, Bundle, Row};

// The most that the free pieces come to, over all ways to take one bid at most of each bidder with no piece twice. The steps are as many as there are
// such ways: for few bidders and few pieces.
pub fn most_of_all_ways(rows: &[Row], free: Bundle) -> u64
    requires { length rows.now ≤ 32 }
    ensures sum { result ≡ best (all_held rows.now) (bits 16 free.mask) }
    ensures ways { Most (all_held rows.now) (bits 16 free.mask) result }
{
    most_from(rows, free)
}

// The same, small enough to be added up: of the first bidder none of its bids is taken, or one that fits, and the others have what it leaves.
fn most_from(rows: &[Row], free: Bundle) -> u64
    requires { length rows.now ≤ 32 }
    ensures sum { result ≡ best (all_held rows.now) (bits 16 free.mask) }
    ensures small { result ≤ length rows.now * 4294967295 }
{
    let Some((row, others)) = rows.split_first() else {
        return 0;
    };
    let mut most = most_from(others, free);
    for bid in row.as_slice() {
        if fits(*bid, free) {
            let rest = most_from(others, left_by(*bid, free));
            most = most.max(u64::from(bid.price) + rest);
        }
    }
    most
}

// These two are this crate's own, as all here is: another program text than those that the tests that are to come compare it with.
fn fits(bid: Bid, free: Bundle) -> bool
    ensures { result ≡ within (meant bid).on (bits 16 free.mask) }
{
    bid.on.is_within(free)
}

fn left_by(bid: Bid, free: Bundle) -> Bundle
    ensures { bits 16 result.mask ≡ less (bits 16 free.mask) (meant bid).on }
{
    free.without(bid.on)
}
