// A group of bidders settled: who gets what, and what is paid.
ghost use Rattle.std.specs.Prelude.{◌^◌, ◌<◌, length};
ghost use Rattle.bundles.specs.Masks.{bits};
ghost use Rattle.bundles.specs.Rows.{all_held};
ghost use Rattle.solver.specs.Paying.{RoomToPay};
ghost use Rattle.solver.specs.Sharing.{AllKept, Shared};

use crate::choosing::Tables;
use crate::outcome::Shares;
use crate::sums::words_for;
use crate::welfare::fill_tables;
use bundles::Row;

// Shares out the pieces of a set among the bidders, by tables in lent words. Bids that can't matter may be left out of `kept`, which the tables are made
// of; who gets what still goes by the first bid in order.
pub fn share_out(
    tables: &mut [u32],
    pieces: u32,
    whole: usize,
    rows: &[Row],
    kept: &[Row],
) -> Shares
    requires { (RoomToPay (length tables.old) pieces (length rows.now)) × ((whole < 2 ^ pieces) × (AllKept (all_held kept.now) (all_held rows.now))) }
    ensures { Shared (all_held rows.now) (bits pieces whole) result }
{
    let end = words_for(pieces, rows.len());
    let (words, spare) = tables.split_at_mut(end);
    fill_tables(words, pieces, kept);
    let all = Tables {
        words,
        pieces,
        whole,
        rows,
    };
    let of_kept = Tables {
        words,
        pieces,
        whole,
        rows: kept,
    };
    of_kept.pay_all(spare, all.allocate())
}
