// The words of the paper ("Trade words") and of the requests: eight refusals and fifteen failures, each with its
// number; and what a call answers.
#![tactic(auto)]

mod answer;
mod entry;
mod stepped;
mod words;

pub use answer::{Answer, Opened, Part};
pub use entry::{admit, confirmable};
pub use stepped::Stepped;
pub use words::{Failure, Refusal};
