// The calls that a house is asked. No `PartialEq`, since `Bids` has none.

use crate::bids::Bids;

#[derive(Clone, Copy, Debug)]
pub enum Call<'a> {
    Open {
        pieces: u32,
        until: u32,
    },
    Bid {
        lot: u32,
        bidder: u32,
        bids: Bids<'a>,
    },
    Ticks {
        ticks: u32,
    },
    MyBids {
        lot: u32,
        bidder: u32,
    },
    Result {
        lot: u32,
        bidder: u32,
    },
    Brings {
        lot: u32,
    },
    Lot {
        lot: u32,
    },
}
