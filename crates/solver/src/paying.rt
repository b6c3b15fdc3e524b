// What is paid: what the others could have had without a winner, less what they have (the Clarke payment). What they could have had is not reckoned
// anew for each: it is the most, over all ways to part the pieces, of what those before the winner and those behind it have.
ghost use Rattle.std.specs.Prelude.{◌≡◌, ◌+◌, ◌-◌, ◌*◌, ◌^◌, ◌<◌, ◌≤◌, length};
ghost use Rattle.bundles.specs.Masks.{bits};
ghost use Rattle.bundles.specs.Rows.{all_held};
ghost use Rattle.solver.specs.Choosing.{price_of as price_taken};
ghost use Rattle.solver.specs.Paying.{Charged, Joined};
ghost use Rattle.solver.specs.Tables.{Small, table_words};

use crate::choosing::Tables;
use crate::filling::fill;
use crate::outcome::{Share, Shares, Taken};
use crate::sums::{get_sum, words_of};
use std::mem::swap;

impl Tables<'_, '_> {
    // What was taken, with what each bidder pays for it, and behind the last one nothing. The tables of those before a bidder are made in spare words
    // for two, in turn.
    pub(crate) fn pay_all(&self, spare: &mut [u32], taken: [Option<Taken>; 32]) -> Shares
        requires { 2 * table_words self.now.pieces ≤ length spare.old }
        ensures { Charged (all_held self.now.rows.now) (bits self.now.pieces self.now.whole) taken result }
    {
        let words = words_of(self.pieces);
        let (mut before, spare) = spare.split_at_mut(words);
        let mut after = &mut spare[..words];
        let most = get_sum(self.table(0), self.whole);
        let mut shares = [Share::default(); 32];
        before.fill(0);
        // By the bidder's number, which its table goes by too.
        for (bidder, row) in self.rows.iter().enumerate() {
            let without = join(before, self.table(bidder + 1), self.whole);
            let got = taken[bidder];
            shares[bidder] = Share {
                taken: got,
                paid: payment(without, most, got),
            };
            fill(after, before, row.as_slice());
            swap(&mut before, &mut after);
        }
        shares
    }
}

// What the others could have had without a bidder, less what they have of all that is had.
fn payment(without: u64, most: u64, taken: Option<Taken>) -> u64
    ensures { result ≡ without - (most - price_taken taken) }
{
    let price = price_of(taken);
    without.saturating_sub(most.saturating_sub(price))
}

// The price of what is taken, and 0 where nothing is.
pub fn price_of(taken: Option<Taken>) -> u64
    ensures price { result ≡ price_taken taken }
    ensures small { result < 2 ^ 32 }
{
    taken.map_or(0, |taken| u64::from(taken.bid.price))
}

// The most that two groups of bidders, each with its table, have together of all that there is. One step for each set.
// A set is its own place in a table, so it is a `usize` here, as `free` and `whole` are where pieces are chosen.
fn join(first: &[u32], second: &[u32], whole: usize) -> u64
    requires fits { (length second.now ≡ length first.now) × (2 * whole + 1 < length first.now) }
    requires small { (Small first.now) × (Small second.now) }
    ensures { Joined first.now second.now whole result }
{
    let mut most = 0;
    for set in 0..first.len() / 2 {
        let part = whole & set;
        let both = get_sum(first, part) + get_sum(second, whole - part);
        most = both.max(most);
    }
    most
}
