// The bridge between masks and sets of pieces. These functions compute nothing: each has a law of the bits of a number for
// its contract, for any number of pieces that are looked at, and a call brings the law to the caller's proof.
ghost use Rattle.std.specs.Prelude.{◌≡◌, ℕ, ◌-◌, ◌/◌, ◌%◌, ◌^◌, ◌<◌, ◌≤◌, false, not, Decides, ◌==◌, bit_and, bit_or, nat_le, nat_lt, slice_index_or};
ghost use Rattle.auction.specs.Bids.{all, less, within};
ghost use Rattle.auction.specs.House.{any};
ghost use Rattle.auction.specs.Laws.{touches};
ghost use Rattle.bundles.specs.Masks.{bits, union};

pub fn no_bit_is_no_piece(m: u16)
    ensures { (n : ℕ) → m < 2 ^ n → (m == 0) ≡ not (any (bits n m)) }
{}

pub fn a_bit_is_a_piece(m: u16, p: u32)
    ensures below { (n : ℕ) → m < 2 ^ n → (m / 2 ^ p % 2 == 1) ≡ slice_index_or (bits n m) p false }
    ensures past { 16 ≤ p → (n : ℕ) → m < 2 ^ n → nat_lt p 16 ≡ slice_index_or (bits n m) p false }
{}

pub fn common_bits_are_all(s: u16, m: u16)
    ensures { (k n : ℕ) → s < 2 ^ k → m < 2 ^ n → (bit_and s m == s) ≡ within (bits k s) (bits n m) }
{}

pub fn cleared_bits_are_taken_away(m: u16, s: u16)
    ensures { (k n : ℕ) → s < 2 ^ k → bits n (bit_and m (65535 - s)) ≡ less (bits n m) (bits k s) }
{}

pub fn joined_bits_are_the_union(a: u16, b: u16)
    ensures { (n : ℕ) → bits n (bit_or a b) ≡ union (bits n a) (bits n b) }
{}

pub fn common_bits_are_shared(s: u16, m: u16)
    ensures { (k n : ℕ) → s < 2 ^ k → m < 2 ^ n → not (bit_and s m == 0) ≡ touches (bits k s) (bits n m) }
{}

pub fn same_bits_are_the_same_set(a: u16, b: u16)
    ensures { (n : ℕ) → a < 2 ^ n → b < 2 ^ n → Decides (a == b) (bits n a ≡ bits n b) }
{}

pub fn no_bit_beyond_is_within(m: u16, pieces: u32)
    ensures below { (k : ℕ) → m < 2 ^ k → (m / 2 ^ pieces == 0) ≡ within (bits k m) (all pieces) }
    ensures past { 16 ≤ pieces → (k : ℕ) → m < 2 ^ k → nat_le 16 pieces ≡ within (bits k m) (all pieces) }
{}
