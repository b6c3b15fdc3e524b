// Who gets what: bidder by bidder in their order, the first of its bids with which the most can still be had, and nothing only if there is none.
ghost use Rattle.std.specs.Prelude.{◌≡◌, ℕ, ◌+◌, ◌*◌, ◌^◌, ◌<◌, ◌≤◌, [], length, drop, slice_index, slice_index_or};
ghost use Rattle.auction.specs.Bids.{Some as SetOfPieces};
ghost use Rattle.auction.specs.Bids.{best, choice, less};
ghost use Rattle.bundles.specs.Masks.{bits};
ghost use Rattle.bundles.specs.Offers.{all_meant, meant};
ghost use Rattle.bundles.specs.Rows.{all_held};
ghost use Rattle.solver.specs.Choosing.{Allocated, IsFirst, IsTaken, Solved, good, pieces_of};
ghost use Rattle.solver.specs.Tables.{Holds, Small, table_words};
ghost use Rattle.solver.specs.Welfare.{Room};

use crate::outcome::Taken;
use crate::sums::{get_sum, words_of};
use bundles::{Bid, Row};

// The tables of some bidders, filled, in lent words; behind the last one stands a table of nothing but 0. `whole` is the set of all pieces that there are.
#[derive(Clone, Copy, Debug)]
pub struct Tables<'w, 'r> {
    pub words: &'w [u32],
    pub pieces: u32,
    pub whole: usize,
    pub rows: &'r [Row],
    pub ghost room: { Room (length words.now) pieces (length rows.now) },
    pub ghost small: { whole < 2 ^ pieces },
    pub ghost solved: { Solved words.now pieces (all_held rows.now) },
}

impl<'w> Tables<'w, '_> {
    // A bidder's table, or the one behind the last bidder's.
    pub fn table(&self, bidder: usize) -> &'w [u32]
        requires { bidder ≤ length self.now.rows.now }
        ensures long { length result.now ≡ table_words self.now.pieces }
        ensures holds { Holds result.now self.now.pieces (best (drop bidder (all_held self.now.rows.now))) }
        ensures small { Small result.now }
    {
        let size = words_of(self.pieces);
        let at = bidder * size;
        &self.words[at..at + size]
    }

    // Who gets what of all that there is: for each bidder in its turn what is taken of its bids, and behind the last one nothing.
    pub fn allocate(&self) -> [Option<Taken>; 32]
        ensures { Allocated (all_held self.now.rows.now) (bits self.now.pieces self.now.whole) result }
    {
        // An array of its own and no `Shares`: who gets what goes by all bids, and what is paid by those that are kept, so two tables of bidders are gone through.
        let mut taken = [None; 32];
        let mut free = self.whole;
        for (bidder, got) in taken[..self.rows.len()].iter_mut().enumerate() {
            *got = self.choose(bidder, free);
            free = left_over(free, *got);
        }
        taken
    }

    // What this bidder gets of what is free: the first of its bids with which the most is still had.
    pub fn choose(&self, bidder: usize, free: usize) -> Option<Taken>
        requires there { bidder < length self.now.rows.now }
        requires small { free < 2 ^ self.now.pieces }
        ensures { IsTaken (slice_index_or (all_held self.now.rows.now) bidder []) (slice_index (choice (drop bidder (all_held self.now.rows.now)) (bits self.now.pieces free)) 0) result }
    {
        let rest = self.table(bidder + 1);
        let most = get_sum(self.table(bidder), free);
        let bids = self.rows[bidder].as_slice();
        let i = first_good(bids, rest, free, most)?;
        Some(Taken {
            place: i + 1,
            bid: bids[i],
        })
    }
}

// The place of the first bid that fits what is free and comes, with what there is for the rest, to the most.
// A table is a bare slice here and in the other functions on one, with `Small` and its length in their contracts: a struct of a slice and that fact would have to
// be made anew of lent words, with that fact shown, wherever one is written and then read: in `fill_tables`, and in turn in `pay_all`.
fn first_good(bids: &[Bid], rest: &[u32], free: usize, most: u64) -> Option<usize>
    requires in_rest { 2 * free + 1 < length rest.now }
    requires small { Small rest.now }
    ensures { (n : ℕ) → (has : SetOfPieces → ℕ) → free < 2 ^ n → Holds rest.now n has → IsFirst result (all_meant bids.now) (bits n free) has most }
{
    bids.iter().position(|&bid| is_good(bid, rest, free, most))
}

// Does the bid fit what is free and come, with what there is for the rest, to the most?
fn is_good(bid: Bid, rest: &[u32], free: usize, most: u64) -> bool
    requires in_rest { 2 * free + 1 < length rest.now }
    requires small { Small rest.now }
    ensures { (n : ℕ) → (has : SetOfPieces → ℕ) → free < 2 ^ n → Holds rest.now n has → result ≡ good (meant bid) (bits n free) has most }
{
    let on = usize::from(bid.on.mask);
    free & on == on && u64::from(bid.price) + get_sum(rest, free - on) == most
}

// What is left of a set when this is taken.
fn left_over(free: usize, got: Option<Taken>) -> usize
    ensures less { (n : ℕ) → bits n result ≡ less (bits n free) (bits 16 (pieces_of got)) }
    ensures no_more { result ≤ free }
{
    got.map_or(free, |taken| free & !usize::from(taken.bid.on.mask))
}
