// Values as bytes: numbers, low byte first, and bids.
ghost use Rattle.std.specs.Prelude.{◌≡◌, ℕ, ◌+◌, ◌*◌, ◌≤◌, List, [], ◌∷◌, length, drop, slice_index};
ghost use Rattle.bundles.specs.Offers.{meant};
ghost use Rattle.wire.specs.Bytes.{all_bytes, bid_in, bids_bytes, number_in, put, spelled};
ghost use Rattle.wire.specs.Sizes.{length-bid, length-spelled};

use crate::sixes::a_set_and_a_price_are_a_bid;
use bundles::{Bid, Bundle};

// A value that is so many bytes. The place stands beside the bytes, which are not cut off before each of some twenty calls:
// `u32::read(request, 5)` is what the format says, a number at place 5.
pub trait InBytes: Copy + Drop {
    ghost SIZE: { ℕ };

    // which bytes it is written as, and whether it is the value of the first of these
    ghost spelling: { Self → List ℕ };

    ghost IsIn: { Self → List ℕ → Type 0 };

    const SIZE: usize;

    fn read(bytes: &[u8], at: usize) -> Self
        requires { at + SIZE ≤ length bytes.now }
        ensures { IsIn result (drop at bytes.now) };

    fn write(self, out: &mut [u8], at: usize)
        requires { at + SIZE ≤ length out.old }
        ensures { out.new ≡ put out.old at (spelling self) };

    ghost as_many: { (x : Self) → length (spelling x) ≡ SIZE };
}

// The byte at a place, or 0 where the bytes end before it.
pub fn byte_or_zero(bytes: &[u8], at: usize) -> u8
    ensures { result ≡ slice_index bytes.now at }
{
    bytes.get(at).copied().unwrap_or(0)
}

// Writes these values one after the other, each at its place: of the chunks of a slice a proof knows no element once they are given back.
pub fn write_all<T: InBytes>(values: &[T], out: &mut [u8], at: usize)
    requires { at + T.SIZE * length values.now ≤ length out.old }
    ensures { out.new ≡ put out.old at (all_bytes T.spelling values.now) }
{
    for (i, value) in values.iter().enumerate() {
        value.write(out, at + T::SIZE * i);
    }
}

// Each width has an impl of its own: no bound says that a type is an unsigned number of so many bytes, and the gate takes no
// impl that a macro writes.
impl InBytes for u16 {
    ghost SIZE = { 2 };

    ghost spelling = { spelled 2 };

    ghost IsIn = { λ n bs. n ≡ number_in 2 bs };

    ghost as_many = { length-spelled 2 };

    const SIZE: usize = 2;

    fn read(bytes: &[u8], at: usize) -> u16 {
        u16::from_le_bytes([bytes[at], bytes[at + 1]])
    }

    fn write(self, out: &mut [u8], at: usize) {
        out[at..at + 2].copy_from_slice(&self.to_le_bytes());
    }
}

impl InBytes for u32 {
    ghost SIZE = { 4 };

    ghost spelling = { spelled 4 };

    ghost IsIn = { λ n bs. n ≡ number_in 4 bs };

    ghost as_many = { length-spelled 4 };

    const SIZE: usize = 4;

    fn read(bytes: &[u8], at: usize) -> u32 {
        u32::from_le_bytes([bytes[at], bytes[at + 1], bytes[at + 2], bytes[at + 3]])
    }

    fn write(self, out: &mut [u8], at: usize) {
        out[at..at + 4].copy_from_slice(&self.to_le_bytes());
    }
}

impl InBytes for u64 {
    ghost SIZE = { 8 };

    ghost spelling = { spelled 8 };

    ghost IsIn = { λ n bs. n ≡ number_in 8 bs };

    ghost as_many = { length-spelled 8 };

    const SIZE: usize = 8;

    fn read(bytes: &[u8], at: usize) -> u64 {
        u64::from_le_bytes([
            bytes[at],
            bytes[at + 1],
            bytes[at + 2],
            bytes[at + 3],
            bytes[at + 4],
            bytes[at + 5],
            bytes[at + 6],
            bytes[at + 7],
        ])
    }

    fn write(self, out: &mut [u8], at: usize) {
        out[at..at + 8].copy_from_slice(&self.to_le_bytes());
    }
}

// Six bytes: the set in two, and the price in four.
impl InBytes for Bid {
    ghost SIZE = { 6 };

    ghost spelling = { λ b. bids_bytes (meant b ∷ []) };

    ghost IsIn = { λ b bs. meant b ≡ bid_in bs };

    ghost as_many = { λ b. length-bid (meant b) };

    const SIZE: usize = 6;

    fn read(bytes: &[u8], at: usize) -> Bid {
        Bid {
            on: Bundle {
                mask: u16::read(bytes, at),
            },
            price: u32::read(bytes, at + 2),
        }
    }

    fn write(self, out: &mut [u8], at: usize) {
        a_set_and_a_price_are_a_bid(out, at, self);
        self.on.mask.write(out, at);
        self.price.write(out, at + 2);
    }
}
