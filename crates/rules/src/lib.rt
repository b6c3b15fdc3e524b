// For each call the checks, in the order of the refusals: each reads the lent memory and hands on what the deed needs, or says why the call is turned away.
#![tactic(auto)]

pub use bidding::{Taking, may_bid};
pub use opening::may_open;
pub use showing::{Showing, may_show};
pub use telling::may_tell;
pub use ticking::may_tick;
pub use turned::Turned;
pub use unable::{not_yet, unreadable};

pub mod bidding;
mod fine;
pub mod opening;
pub mod showing;
pub mod telling;
pub mod ticking;
pub mod turned;
pub mod unable;
