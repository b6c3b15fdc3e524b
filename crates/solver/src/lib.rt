// Winner determination and Clarke payments for a group of bidders: for each bidder from the last one on and each set of pieces the most that the bids of
// these bidders come to, exactly, in lent memory; and from that who gets what, and what is paid.
#![tactic(auto)]

pub use choosing::Tables;
pub use outcome::{Share, Shares, Taken};
pub use paying::price_of;
pub use sharing::share_out;
pub use sums::words_for;
pub use welfare::fill_tables;

pub mod choosing;
mod filling;
mod outcome;
mod paying;
pub mod sharing;
mod sums;
pub mod welfare;
