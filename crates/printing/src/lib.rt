// Answers as lines of text: `{}` of a `Line` is the answer's line.
#![tactic(auto)]

pub use answers::Line;
pub use offers::{Offer, Pieces};

mod answers;
mod offers;
