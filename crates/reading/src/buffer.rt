// The bids of a call as they are read, at most 255, six bytes each.
ghost use Rattle.std.specs.Prelude.{◌≡◌, ◌<◌, ◌≤◌, [], ◌∷◌, ◌++◌, length, ◌==◌};
ghost use Rattle.bundles.specs.Offers.{meant};
ghost use Rattle.wire.specs.Offers.{offers};

use bundles::Bid;
use std::marker::Model;
use wire::{Bids, InBytes, MOST_BIDS};

// The bytes stand beside a count, since a call lends its bids as the bytes that they are, and nothing here uses the heap.
#[derive(Drop)]
pub struct BidBuffer {
    bytes: [u8; 6 * MOST_BIDS],
    count: usize,
}

// A clause sees the bids, in their order.
impl Model for BidBuffer {
    ghost use Rattle.std.specs.Prelude.{◌≡◌, ◌≤◌, length};
    ghost use Rattle.auction.specs.Bids.{Bids};
    ghost use Rattle.wire.specs.Bytes.{bids_in};

    ghost Value = { Bids };

    ghost view = { λ b. bids_in b.count b.bytes };

    ghost invariant = { λ b. (b.count ≤ 255) × (length b.bytes ≡ 1530) };
}

impl BidBuffer {
    #[tactic(auto, unfolding(wire::specs::Bytes::bids_in))]
    pub fn new() -> BidBuffer
        ensures { result ≡ [] }
    {
        BidBuffer {
            bytes: [0; 6 * MOST_BIDS],
            count: 0,
        }
    }

    #[tactic(auto, unfolding(wire::specs::Bytes::bids_in))]
    pub(crate) fn clear(&mut self)
        ensures { self.new ≡ [] }
    {
        self.count = 0;
    }

    #[tactic(auto, using(crate::proofs::Kept::as_many))]
    pub fn is_full(&self) -> bool
        ensures full { result ≡ (length self.now == 255) }
        ensures within { length self.now ≤ 255 }
    {
        self.count == MOST_BIDS
    }

    #[tactic(auto, using(crate::proofs::Kept::as_many, crate::proofs::Kept::written_more))]
    pub(crate) fn push(&mut self, bid: Bid)
        requires { length self.old < 255 }
        ensures { self.new ≡ self.old ++ meant bid ∷ [] }
    {
        bid.write(&mut self.bytes, 6 * self.count);
        self.count += 1;
    }

    // The part of the bytes that the bids are.
    #[tactic(auto, using(crate::proofs::Kept::part_offers))]
    pub fn bids(&self) -> Bids<'_>
        ensures { offers result ≡ self.now }
    {
        Bids {
            bytes: &self.bytes[..6 * self.count],
        }
    }
}
