// The house's whole state in one lent slice of words: header, lots, rows of bids, and tables for the solver.
#![tactic(auto)]

pub use finding::{Closing, closed_by_now, find_lot, find_place, next_closing};
pub use layout::{Layout, Limits, MOST_BIDDERS, MOST_EACH, MOST_LOTS, RowPlace, words_needed};
pub use lots::{Lot, add_lot, lot_of};
pub use opening::{Trouble, open};
pub use rows::{bids_of, read_row, replace_bids};
pub use standing::{Header, TICKS, set_now, stands};

pub mod finding;
pub mod laws;
pub mod layout;
pub mod lots;
pub mod opening;
pub mod rows;
pub mod standing;
