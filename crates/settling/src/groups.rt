// A group of bidders settled, over its own pieces only.
ghost use Rattle.std.specs.Prelude.{◌≡◌, [], not, ◌==◌, bit_and, length};
ghost use Rattle.auction.specs.Bids.{pick};
ghost use Rattle.bundles.specs.Offers.{all_meant};
ghost use Rattle.bundles.specs.Rows.{held};
ghost use Rattle.bundles.specs.Masks.{bits};
ghost use Rattle.settling.specs.Groups.{Closed, GroupShares};
ghost use Rattle.settling.specs.Packs.{packed_bids, places_in};
ghost use Rattle.solver.specs.Paying.{RoomToPay};

use crate::covering::matter;
use crate::grouping::Party;
use crate::packing::{how_many, pack, pack_row};
use bundles::{Bundle, Row, UpTo};
use solver::{Shares, share_out};

impl Party<'_> {
    // What the members of a group get and pay among all bidders, of all the pieces that there are.
    pub fn share_group(&self, tables: &mut [u32], group: Bundle) -> Shares
        requires room { RoomToPay (length tables.old) (places_in group.mask) (length self.now.rows.now) }
        requires closed { Closed self.now.wants group.mask }
        ensures { GroupShares self.now.rows.now self.now.wants group.mask (bits 16 self.now.whole.mask) result }
    {
        let mut members = UpTo::<Row, 32>::new();
        let mut kept = UpTo::<Row, 32>::new();
        // By the bidder's number: `.zip(&self.wants)` was tried, and such a loop has no place by which the invariant could name the rows so far.
        for (bidder, row) in self.rows.iter().enumerate() {
            let member = member_row(row, self.wants[bidder], group);
            members.add(member);
            kept.add(matter(&member));
        }
        share_out(
            tables,
            how_many(group),
            usize::from(pack(self.whole, group).mask),
            members.as_slice(),
            kept.as_slice(),
        )
    }
}

// The bids of a member of a group on its pieces, moved together; who is not in it has none.
fn member_row(row: &Row, wants: Bundle, group: Bundle) -> Row
    ensures { all_meant (held result) ≡ pick (not (bit_and wants.mask group.mask == 0)) (all_meant (packed_bids group.mask (held row.now))) [] }
{
    if wants.shares(group) {
        pack_row(row, group)
    } else {
        Row::new()
    }
}
