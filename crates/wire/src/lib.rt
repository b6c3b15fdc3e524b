// Calls and answers, as values and as bytes.
#![tactic(auto)]

pub use answer::{Answer, Refusal, UnknownRefusal};
pub use bids::{Bids, MOST_BIDS};
pub use call::Call;
pub use in_bytes::InBytes;
pub use kind::{Kind, UnknownKind};
pub use replies::{read_answer, write_answer};
pub use requests::{read_call, write_call};

pub mod answer;
pub mod bids;
pub mod call;
mod in_bytes;
mod kind;
mod replies;
mod requests;
mod sixes;
