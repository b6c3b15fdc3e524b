// The tables of all bidders, from the last one on. A table for n pieces has a sum for each of the 2^n sets; the work is, for each bid, as many
// steps as there are sets that hold it: bids times 2^n at most, known beforehand.
ghost use Rattle.std.specs.Prelude.{length};
ghost use Rattle.bundles.specs.Rows.{all_held};
ghost use Rattle.solver.specs.Welfare.{AllMost, FilledFrom, Room};

use crate::filling::fill;
use crate::sums::words_of;
use bundles::Row;

// Fills the tables of all bidders: each sum is the most that the bids of the bidders from that one on come to, over all ways. By recursion over how
// many there are: the tables of the others first, and behind the last one a table of nothing but 0.
pub fn fill_tables(tables: &mut [u32], pieces: u32, rows: &[Row])
    requires { Room (length tables.old) pieces (length rows.now) }
    ensures filled { FilledFrom tables.old tables.new pieces (all_held rows.now) 0 }
    ensures ways { AllMost tables.new pieces (all_held rows.now) }
{
    let words = words_of(pieces);
    let (first, later) = tables.split_at_mut(words);
    match rows.split_first() {
        Some((row, others)) => {
            fill_tables(later, pieces, others);
            fill(first, &later[..words], row.as_slice());
        }
        None => first.fill(0),
    }
}
