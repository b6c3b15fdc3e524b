// The daybook: a list of calls, as records in one row of bytes, is done from beginning to end, and the answers come as records.
#![tactic(auto)]

pub use days::answer_all;
pub use houses::{Stopped, run_house};

mod days;
mod houses;
mod records;
