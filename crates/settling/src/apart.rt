// Everybody's shares, group by group.
ghost use Rattle.std.specs.Prelude.{◌≤◌, length};
ghost use Rattle.auction.specs.Bids.{Some as SetOfPieces};
ghost use Rattle.bundles.specs.Masks.{bits};
ghost use Rattle.bundles.specs.Offers.{all_meant};
ghost use Rattle.bundles.specs.Rows.{all_held, held};
ghost use Rattle.settling.specs.Apart.{WithGroup};
ghost use Rattle.settling.specs.Groups.{GroupShares};
ghost use Rattle.settling.specs.Packs.{places_in};
ghost use Rattle.solver.specs.Choosing.{IsTaken, number_of};
ghost use Rattle.solver.specs.Paying.{RoomToPay};
ghost use Rattle.solver.specs.Sharing.{Shared};

use crate::grouping::Party;
use crate::lone::{best_alone, taken_at};
use bundles::{Bundle, Row};
use solver::{Share, Shares, Taken};

impl Party<'_> {
    // Shares out all pieces that there are: a bidder whose pieces nobody else wants by itself, and the others in the groups that share pieces, each by tables
    // of its own pieces only.
    pub fn share(&self, tables: &mut [u32]) -> Shares
        requires { RoomToPay (length tables.old) (places_in self.now.whole.mask) (length self.now.rows.now) }
        ensures { Shared (all_held self.now.rows.now) (bits 16 self.now.whole.mask) result }
    {
        let mut shares = [Share::default(); 32];
        let mut done = Bundle::default();
        for (bidder, row) in self.rows.iter().enumerate() {
            if self.is_lone(bidder) {
                shares[bidder] = Share {
                    taken: best_alone(row, self.whole),
                    paid: 0,
                };
            } else if !self.wants[bidder].shares(done) {
                let group = self.group_of(self.wants[bidder]);
                let of_group = self.share_group(tables, group);
                self.put_group(group, &of_group, &mut shares);
                done = done.joined(group);
            }
        }
        shares
    }

    // Puts the shares of a group's members in their places.
    fn put_group(&self, group: Bundle, of_group: &Shares, shares: &mut Shares)
        ensures { (free : SetOfPieces) → GroupShares self.now.rows.now self.now.wants group.mask free of_group.now → WithGroup self.now.rows.now self.now.wants group.mask free shares.old shares.new }
    {
        // By the member's number: with zip it would be four arrays deep, as `self.rows.iter().zip(&self.wants).zip(of_group).zip(shares)`.
        for (member, row) in self.rows.iter().enumerate() {
            if self.wants[member].shares(group) {
                let share = of_group[member];
                shares[member] = Share {
                    taken: own_bid(row, share.taken),
                    paid: share.paid,
                };
            }
        }
    }
}

// What a member gets, by its own bid in place of the one on pieces moved together.
fn own_bid(row: &Row, taken: Option<Taken>) -> Option<Taken>
    ensures { number_of taken ≤ length (held row.now) → IsTaken (all_meant (held row.now)) (number_of taken) result }
{
    taken_at(row, taken?.place)
}
