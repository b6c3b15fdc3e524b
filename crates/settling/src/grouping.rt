// Bidders fall into groups that share pieces: each is settled by itself, over its own pieces only.
ghost use Rattle.std.specs.Prelude.{◌≡◌, ℕ, ◌<◌, ◌≤◌, ◌↔◌, [], length, map, slice_index_or, IsTrue, IsNone, IfSome};
ghost use Rattle.bundles.specs.Rows.{held};
ghost use Rattle.settling.specs.Groups.{AllWants, Grown, GroupPieces, In, want, wants as wants_in};

use bundles::{Bundle, Row};
use std::array;

// The bidders of a lot and what each wants of the pieces that there are; behind the last one nothing. What they want stands beside their rows of bids and
// not with them, since the rows are lent memory, and the solver takes them so.
#[derive(Clone, Copy, Debug)]
pub struct Party<'a> {
    pub whole: Bundle,
    pub rows: &'a [Row],
    pub wants: [Bundle; 32],
    ghost few: { length rows.now ≤ 32 },
    ghost known: { AllWants rows.now wants },
    ghost inside: { (j : ℕ) → In (want wants j) whole.mask },
}

impl Party<'_> {
    // None where somebody wants a piece that there isn't.
    pub fn new(whole: Bundle, rows: &[Row]) -> Option<Party<'_>>
        requires { length rows.now ≤ 32 }
        ensures some { IfSome result (λ p. (p.whole ≡ whole) × (p.rows.now ≡ rows.now)) }
        ensures none { IsNone result → ¬ ((i : ℕ) → In (wants_in (slice_index_or (map held rows.now) i [])) whole.mask) }
    {
        let wants = wants_of_all(rows);
        if !all_within(&wants, whole) {
            return None;
        }
        Some(Party { whole, rows, wants })
    }

    // The pieces of the group of who wants these: whoever wants one of them wants no others. At most one round for each piece, since each but the last adds one.
    pub fn group_of(&self, wanted: Bundle) -> Bundle
        requires { In wanted.mask self.now.whole.mask }
        ensures { GroupPieces self.now.wants self.now.whole.mask wanted.mask result.mask }
    {
        let mut pieces = wanted;
        loop {
            let more = self.grow(pieces);
            if more == pieces {
                return pieces;
            }
            pieces = more;
        }
    }

    // These pieces, and all that bidders want who want one of them.
    fn grow(&self, pieces: Bundle) -> Bundle
        requires { In pieces.mask self.now.whole.mask }
        ensures { Grown self.now.wants self.now.whole.mask pieces.mask result.mask }
    {
        let mut more = pieces;
        for wants in &self.wants {
            if wants.shares(pieces) {
                more = more.joined(*wants);
            }
        }
        more
    }
}

// What each bidder wants.
fn wants_of_all(rows: &[Row]) -> [Bundle; 32]
    requires { length rows.now ≤ 32 }
    ensures { AllWants rows.now result }
{
    array::from_fn(|bidder| wants_at(rows, bidder))
}

// What a bidder wants, by its number; behind the last one nothing is wanted.
fn wants_at(rows: &[Row], bidder: usize) -> Bundle
    ensures { result.mask ≡ wants_in (slice_index_or (map held rows.now) bidder []) }
{
    rows.get(bidder).map_or(Bundle::default(), wants_of)
}

// What a bidder wants: the pieces of all its bids.
fn wants_of(row: &Row) -> Bundle
    ensures { result.mask ≡ wants_in (held row.now) }
{
    let mut pieces = Bundle::default();
    for bid in row.as_slice() {
        pieces = pieces.joined(bid.on);
    }
    pieces
}

// Is all that anybody wants among these pieces?
fn all_within(wants: &[Bundle; 32], whole: Bundle) -> bool
    ensures { IsTrue result ↔ ((j : ℕ) → In (want wants.now j) whole.mask) }
{
    wants.iter().all(|wants| wants.is_within(whole))
}
