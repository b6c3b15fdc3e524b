// The session: a house in lent memory, calls in, answers out.
#![tactic(auto)]

pub use calls::{answer, call};
pub use opening::open;

mod calls;
mod deeds;
mod opening;
