// Functions for C and Rust over lent slices. Any input will do: what is bad is turned away, and then nothing is changed.
#![tactic(auto)]

pub use tables::vabrjoth_fill_tables;

mod codes;
mod rows;
mod tables;
