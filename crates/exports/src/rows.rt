// The bids of bidders in a caller's words, read by value: for each bidder sixteen bids of two words, as the house has them in its memory.
ghost use Rattle.std.specs.Prelude.{◌≡◌, ◌*◌, ◌≤◌, length};
ghost use Rattle.bundles.specs.Rows.{all_held, held};
ghost use Rattle.exports.specs.Filling.{rows_in};

use bundles::{Row, UpTo};
use ledger::read_row;

// The rows of so many bidders.
pub fn read_rows(words: &[u32], bidders: usize) -> UpTo<Row, 32>
    requires { (bidders ≤ 32) × (32 * bidders ≤ length words.now) }
    ensures rows { all_held (held result) ≡ rows_in words.now bidders }
    ensures many { length (held result) ≡ bidders }
{
    let mut rows = UpTo::new();
    let (all, _) = words.as_chunks::<32>();
    for row in &all[..bidders] {
        rows.add(read_row(row));
    }
    rows
}
