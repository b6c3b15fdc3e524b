// A lot settled, in lent words that are all 0 afterwards.
ghost use Rattle.std.specs.Prelude.{◌≡◌, ◌+◌, ◌^◌, ◌≤◌, min, length, replicate};
ghost use Rattle.auction.specs.Bids.{all};
ghost use Rattle.bundles.specs.Rows.{all_held};
ghost use Rattle.settling.specs.Settled.{Settled};
ghost use Rattle.solver.specs.Paying.{RoomToPay};
ghost use Rattle.solver.specs.Sharing.{Shared};

use crate::grouping::Party;
use crate::totals::{payments_of, prices_of};
use bundles::{Bundle, MOST_PIECES, Row};
use solver::{Shares, share_out};

// By bidder what is taken of its bids and what it pays; the prices of all bids taken, and all that is paid.
#[derive(Clone, Copy, Debug, PartialEq, Eq)]
pub struct Settlement {
    pub shares: Shares,
    pub comes_to: u64,
    pub brings: u64,
}

// Settles a lot of so many pieces, of which no bid can name one beyond the sixteenth.
// Room is asked for here and at each step below, for that step's own pieces, the lot's or a group's: a type of words with room would be made anew for each.
pub fn settle(tables: &mut [u32], pieces: u32, rows: &[Row]) -> Settlement
    requires { RoomToPay (length tables.old) (min pieces 16) (length rows.now) }
    ensures settled { Settled (all_held rows.now) (all pieces) result }
    ensures cleared { tables.new ≡ replicate (length tables.old) 0 }
{
    let shares = share_lot(tables, pieces, rows);
    tables.fill(0);
    Settlement {
        shares,
        comes_to: prices_of(&shares),
        brings: payments_of(&shares),
    }
}

// Group by group; or all at once where a bid is for pieces that the lot does not have, which no house takes.
fn share_lot(tables: &mut [u32], pieces: u32, rows: &[Row]) -> Shares
    requires { RoomToPay (length tables.old) (min pieces 16) (length rows.now) }
    ensures { Shared (all_held rows.now) (all pieces) result }
{
    let counted = pieces.min(MOST_PIECES);
    let whole = all_of(counted);
    match Party::new(whole, rows) {
        Some(party) => party.share(tables),
        None => share_out(tables, counted, usize::from(whole.mask), rows, rows),
    }
}

// The set of so many pieces.
fn all_of(pieces: u32) -> Bundle
    requires { pieces ≤ 16 }
    ensures { result.mask + 1 ≡ 2 ^ pieces }
{
    Bundle {
        mask: ((1u32 << pieces) - 1) as u16,
    }
}
