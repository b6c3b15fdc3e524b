// The parts of a call's line behind its first words: numbers, sets and bids.
ghost use Rattle.std.specs.Prelude.{ℕ, ◌≡◌, ◌<◌, None, Some, Option, Result};
ghost use Rattle.bundles.specs.Offers.{meant};
ghost use Rattle.reading.specs.Lines.{bid, bid_list, comma, digit as digit_of, field, given, larger as larger_by, longer as longer_by, next, number as number_in, piece as piece_of, set_of, skip, some_of};
ghost use Rattle.reading.specs.Readers.{seen, seen_as};
ghost use Rattle.reading.specs.Runs.{Makes, Sorts, ran};

use crate::buffer::BidBuffer;
use crate::reader::{Reader, Unreadable};
use bundles::{Bid, Bundle};

impl<'a> Reader<'a> {
    // The bids of a call, kept in the buffer in place of those that it had.
    #[tactic(auto, using(crate::proofs::Listing::list_steps))]
    pub fn bid_list(&mut self, bids: &mut BidBuffer) -> Result<(), Unreadable>
        ensures { seen_as (λ _. bids.new) result self.new ≡ bid_list self.old }
    {
        bids.clear();
        self.blanks();
        if self.peek().is_none() {
            return Ok(());
        }
        loop {
            bids.push(self.bid()?);
            self.blanks();
            if !self.at(b',') || bids.is_full() {
                return Ok(());
            }
            self.step();
            self.blanks();
        }
    }

    // A set and a price.
    fn bid(&mut self) -> Result<Bid, Unreadable>
        ensures { seen_as meant result self.new ≡ bid self.old }
    {
        Ok(Bid {
            on: Bundle { mask: self.set()? },
            price: self.field()?,
        })
    }

    // A number behind a gap.
    pub fn field(&mut self) -> Result<u32, Unreadable>
        ensures { seen result self.new ≡ field self.old }
    {
        self.gap()?;
        self.number()
    }

    // One digit or more.
    pub fn number(&mut self) -> Result<u32, Unreadable>
        ensures { seen result self.new ≡ number_in self.old }
    {
        self.run(
            0,
            Unreadable,
            digit,
            |number, digit| longer(number, digit).ok_or(Unreadable),
        )
    }

    // One piece or more.
    fn set(&mut self) -> Result<u16, Unreadable>
        ensures { seen result self.new ≡ set_of self.old }
    {
        self.run(
            0,
            Unreadable,
            piece,
            |mask, piece| larger(mask, piece).ok_or(Unreadable),
        )
    }

    // One byte of a sort or more, each of which makes more of what there is; `none` where there is none.
    #[tactic(auto, using(crate::proofs::Steps::grown_next))]
    pub fn run<T: Copy, D: Copy, E: Copy, S: Fn(u8) -> Option<D>, M: Fn(T, D) -> Result<T, E>>(
        &mut self,
        start: T,
        none: E,
        sort: S,
        more: M,
    ) -> Result<T, E>
        requires sorts { S.IsAlwaysCallable sort }
        requires grows { (n : T) (b : ℕ) (d : D) → b < 256 → S.post sort b (Some d) → M.pre more n d }
        ensures { (sort_of : ℕ → Option D) (more_of : T → D → Result T E) → Sorts (S.post sort) sort_of → Makes (M.post more) more_of → ran result self.new ≡ some_of sort_of more_of start none self.old }
    {
        self.peek().and_then(&sort).ok_or(none)?;
        let mut made = start;
        while let Some(part) = self.peek().and_then(&sort) {
            made = more(made, part)?;
            self.step();
        }
        Ok(made)
    }

    // The piece that comes next, if one does.
    pub fn piece(&self) -> Option<u8>
        ensures { result ≡ given (next self.now) None piece_of }
    {
        self.peek().and_then(piece)
    }
}

// What the byte is as a digit.
fn digit(byte: u8) -> Option<u32>
    ensures { result ≡ digit_of byte }
{
    char::from(byte).to_digit(10)
}

// What the byte is as a piece. By hand, since std's `to_digit(16)` takes upper-case letters too.
pub fn piece(byte: u8) -> Option<u8>
    ensures { result ≡ piece_of byte }
{
    match byte {
        b'0'..=b'9' => Some(byte - b'0'),
        b'a'..=b'f' => Some(byte - b'a' + 10),
        _ => None,
    }
}

// The number with a digit more, if it is not too large.
fn longer(number: u32, digit: u32) -> Option<u32>
    ensures { result ≡ longer_by number digit }
{
    u32::try_from(10 * u64::from(number) + u64::from(digit)).ok()
}

// The set with a piece more, if it does not have it yet.
pub fn larger(mask: u16, piece: u8) -> Option<u16>
    requires { piece < 16 }
    ensures { result ≡ larger_by mask piece }
{
    let bit = 1 << piece;
    (mask & bit == 0).then_some(mask | bit)
}
