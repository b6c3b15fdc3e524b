// Lots settled, whole: who gets what, what is paid, what a lot comes to and what it brings.
#![tactic(auto)]

pub use lots::{Settlement, settle};

mod apart;
mod covering;
mod grouping;
mod groups;
mod lone;
pub mod lots;
mod packing;
mod totals;
