// What comes of a group of bidders: which of its bids each has got, and what it pays.
ghost use Rattle.std.specs.Prelude.{◌≤◌};

use bundles::Bid;

// A bid that is taken, and its place among the bids of its bidder, from 1 on.
#[derive(Clone, Copy, Debug, PartialEq, Eq)]
pub struct Taken {
    pub place: usize,
    pub bid: Bid,
    pub ghost counted: { 1 ≤ place },
}

// What a bidder gets, one of its bids at most, and what it pays. By default nothing.
#[derive(Clone, Copy, Debug, Default, PartialEq, Eq)]
pub struct Share {
    pub taken: Option<Taken>,
    pub paid: u64,
}

// The share of each bidder; behind the last one nothing. An array and no list, since settling fills it out of order, group by group.
pub type Shares = [Share; 32];
