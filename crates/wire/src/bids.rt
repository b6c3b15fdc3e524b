// The bids of a call: the part of its bytes that they are, six bytes each. A call carries 255 at most, so bytes beyond are not looked at.
ghost use Rattle.std.specs.Prelude.{◌≡◌, ◌*◌, ◌/◌, ◌%◌, ◌<◌, ◌≤◌, length, MatchOption, slice_index_or};
ghost use Rattle.auction.specs.Bids.{no_bid};
ghost use Rattle.bundles.specs.Offers.{meant};
ghost use Rattle.wire.specs.Bytes.{bids_in};
ghost use Rattle.wire.specs.Offers.{left, offers};
ghost use Rattle.std.specs.Iterator.{YieldsFirstBy, item_count};

use crate::in_bytes::InBytes;
use crate::sixes::{one_by_one, so_many_are_read, the_rest_is_not_read};
use bundles::Bid;

// A call carries no more.
pub const MOST_BIDS: usize = 255;

// No `PartialEq`: bytes beyond the bids are no part of them.
#[derive(Clone, Copy, Debug)]
pub struct Bids<'a> {
    pub bytes: &'a [u8],
}

// The bids of a call, one by one.
#[derive(Drop)]
pub struct BidsIter<'a> {
    rest: &'a [u8],
}

impl<'a> Bids<'a> {
    pub fn len(self) -> usize
        ensures count { result ≡ length (offers self.entry) }
        ensures bound { result ≤ 255 }
        ensures within { 6 * result ≤ length self.entry.bytes.now }
    {
        so_many_are_read(self.bytes);
        (self.bytes.len() / 6).min(MOST_BIDS)
    }

    // Just the bytes of these bids.
    pub fn part(self) -> &'a [u8]
        ensures same { bids_in (length result.now / 6) result.now ≡ offers self.entry }
        ensures whole { length result.now % 6 ≡ 0 }
        ensures bound { length result.now ≤ 1530 }
    {
        so_many_are_read(self.bytes);
        the_rest_is_not_read(self.bytes);
        &self.bytes[0..6 * self.len()]
    }

    // The bid at a place, if there are so many.
    pub fn get(self, i: usize) -> Option<Bid>
        ensures { MatchOption result (length (offers self.entry) ≤ i) (λ b. (i < length (offers self.entry)) × (meant b ≡ slice_index_or (offers self.entry) i no_bid)) }
    {
        so_many_are_read(self.bytes);
        one_by_one(self.bytes);
        if i >= self.len() {
            return None;
        }
        Some(Bid::read(self.bytes, 6 * i))
    }

    pub fn iter(self) -> BidsIter<'a>
        ensures { left result ≡ offers self.entry }
    {
        BidsIter { rest: self.part() }
    }
}

impl<'a> Iterator for BidsIter<'a> {
    type Item = Bid;

    ghost next_gives = { YieldsFirstBy meant left };

    ghost remaining = { item_count left };

    fn next(&mut self) -> Option<Bid> {
        if self.rest.len() < 6 {
            return None;
        }
        let bid = Bid::read(self.rest, 0);
        self.rest = &self.rest[6..];
        Some(bid)
    }
}
