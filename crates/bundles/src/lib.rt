// Sets of pieces as the bits of a number, piece 0 the lowest, and bids on them, by value.
#![tactic(auto)]

ghost use Rattle.std.specs.Prelude.{◌≡◌, ℕ, ◌^◌, ◌<◌, false, not, Decides, slice_index_or};
ghost use Rattle.auction.specs.Bids.{within, less, all};
ghost use Rattle.auction.specs.House.{any};
ghost use Rattle.auction.specs.Laws.{touches};
ghost use Rattle.bundles.specs.Masks.{bits, union};

use bridge::{
    a_bit_is_a_piece, cleared_bits_are_taken_away, common_bits_are_all, common_bits_are_shared,
    joined_bits_are_the_union, no_bit_beyond_is_within, no_bit_is_no_piece,
    same_bits_are_the_same_set,
};
pub use up_to::{Full, UpTo};

mod bridge;
mod up_to;

// No lot has more pieces.
pub const MOST_PIECES: u32 = 16;

// No bid is higher.
pub const HIGHEST_PRICE: u32 = 1_000_000_000;

// A set of pieces. Its contracts hold for any number of pieces that are looked at, as long as the masks have no others.
#[derive(Clone, Copy, Debug, Default, PartialEq, Eq)]
pub struct Bundle {
    pub mask: u16,
}

// An offer of so much for these pieces together, and no others.
#[derive(Clone, Copy, Debug, Default, PartialEq, Eq)]
pub struct Bid {
    pub on: Bundle,
    pub price: u32,
}

// A bidder's bids on a lot.
pub type Row = UpTo<Bid, 16>;

impl Bundle {
    pub fn is_empty(self) -> bool
        ensures { (n : ℕ) → self.mask < 2 ^ n → result ≡ not (any (bits n self.mask)) }
    {
        no_bit_is_no_piece(self.mask);
        self.mask == 0
    }

    // Is this piece in the set?
    pub fn has(self, piece: u32) -> bool
        ensures { (n : ℕ) → self.mask < 2 ^ n → result ≡ slice_index_or (bits n self.mask) piece false }
    {
        a_bit_is_a_piece(self.mask, piece);
        piece < 16 && (self.mask >> piece) % 2 == 1
    }

    // Is every piece of this set in the other?
    pub fn is_within(self, other: Bundle) -> bool
        ensures { (k n : ℕ) → self.mask < 2 ^ k → other.mask < 2 ^ n → result ≡ within (bits k self.mask) (bits n other.mask) }
    {
        common_bits_are_all(self.mask, other.mask);
        self.mask & other.mask == self.mask
    }

    // What is left of this set when the other is taken away.
    pub fn without(self, other: Bundle) -> Bundle
        ensures { (k n : ℕ) → other.mask < 2 ^ k → bits n result.mask ≡ less (bits n self.mask) (bits k other.mask) }
    {
        cleared_bits_are_taken_away(self.mask, other.mask);
        Bundle {
            mask: self.mask & !other.mask,
        }
    }

    // The pieces of either.
    pub fn joined(self, other: Bundle) -> Bundle
        ensures { (n : ℕ) → bits n result.mask ≡ union (bits n self.mask) (bits n other.mask) }
    {
        joined_bits_are_the_union(self.mask, other.mask);
        Bundle {
            mask: self.mask | other.mask,
        }
    }

    // Is some piece in both?
    pub fn shares(self, other: Bundle) -> bool
        ensures { (k n : ℕ) → self.mask < 2 ^ k → other.mask < 2 ^ n → result ≡ touches (bits k self.mask) (bits n other.mask) }
    {
        common_bits_are_shared(self.mask, other.mask);
        self.mask & other.mask != 0
    }

    // Are the two the same set?
    pub fn is_same(self, other: Bundle) -> bool
        ensures { (n : ℕ) → self.mask < 2 ^ n → other.mask < 2 ^ n → Decides result (bits n self.mask ≡ bits n other.mask) }
    {
        same_bits_are_the_same_set(self.mask, other.mask);
        self == other
    }

    // Has a lot of so many pieces all of this set?
    pub fn fits(self, pieces: u32) -> bool
        ensures { (k : ℕ) → self.mask < 2 ^ k → result ≡ within (bits k self.mask) (all pieces) }
    {
        no_bit_beyond_is_within(self.mask, pieces);
        pieces >= 16 || self.mask >> pieces == 0
    }
}
