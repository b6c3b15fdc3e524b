// A bidder whose pieces nobody else wants gets the highest of its bids, and pays nothing: no table is needed.
ghost use Rattle.std.specs.Prelude.{◌≡◌, ◌<◌, ◌≤◌, true, false, ◌≢◌, length, IfSome};
ghost use Rattle.auction.specs.Bids.{within};
ghost use Rattle.bundles.specs.Masks.{bits};
ghost use Rattle.bundles.specs.Offers.{all_meant, meant};
ghost use Rattle.bundles.specs.Rows.{held};
ghost use Rattle.settling.specs.Alone.{WantsApart, alone, counted, highest as highest_of};
ghost use Rattle.settling.specs.Groups.{want};
ghost use Rattle.solver.specs.Choosing.{IsTaken};

use crate::grouping::Party;
use bundles::{Bid, Bundle, Row};
use solver::Taken;

impl Party<'_> {
    // Does nobody else want one of this bidder's pieces?
    pub fn is_lone(&self, bidder: usize) -> bool
        requires { bidder < 32 }
        ensures alone { result ≡ true → WantsApart self.now.wants bidder }
        ensures wanted { result ≡ false → want self.now.wants bidder ≢ 0 }
    {
        let mine = self.wants[bidder];
        !self
            .wants
            .iter()
            .enumerate()
            .filter(|&(other, _)| other != bidder)
            .any(|(_, wants)| wants.shares(mine))
    }
}

// The first of the highest bids that fit, if one does.
pub fn best_alone(row: &Row, whole: Bundle) -> Option<Taken>
    ensures { IsTaken (all_meant (held row.now)) (alone (all_meant (held row.now)) (bits 16 whole.mask)) result }
{
    let best = place_of_best(row.as_slice(), whole)?;
    taken_at(row, best + 1)
}

// The bid with this number, from 1 on, if there is such a bid.
pub fn taken_at(row: &Row, place: usize) -> Option<Taken>
    requires { 1 ≤ place }
    ensures { place ≤ length (held row.now) → IsTaken (all_meant (held row.now)) place result }
{
    let bid = *row.as_slice().get(place - 1)?;
    Some(Taken { place, bid })
}

// Where the first of the highest bids that fit stands.
fn place_of_best(bids: &[Bid], whole: Bundle) -> Option<usize>
    ensures place { counted result ≡ alone (all_meant bids.now) (bits 16 whole.mask) }
    ensures there { IfSome result (λ i. i < length bids.now) }
{
    let most = highest(bids, whole);
    bids.iter()
        .position(|bid| fits(*bid, whole) && bid.price == most)
}

// The highest price of those that fit, and 0 where none does.
fn highest(bids: &[Bid], whole: Bundle) -> u32
    ensures { result ≡ highest_of (all_meant bids.now) (bits 16 whole.mask) }
{
    bids.iter()
        .filter(|bid| fits(**bid, whole))
        .map(|bid| bid.price)
        .fold(0, u32::max)
}

// By value, since a set by value is known to have no piece beyond the sixteenth.
fn fits(bid: Bid, whole: Bundle) -> bool
    ensures { result ≡ within (meant bid).on (bits 16 whole.mask) }
{
    bid.on.is_within(whole)
}
