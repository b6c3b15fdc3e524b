// What the programs share: memory of their own with a house in it, the words of the command line, and what is told of errors.
#![tactic(auto)]

pub use memory::{NoHouse, opened};
pub use telling::{told, word};

mod memory;
mod telling;
