//! The program as one call: the words and the files go in, the answer goes out.
#![tactic(auto)]

mod answer;
mod compile;
mod deliver;
mod describe;
mod emit;
mod fetch;
pub mod laws;
mod lines;
mod make;
mod normalise;
pub mod refusal;
mod run;
mod simulate;
pub mod status;
mod tell;
pub mod top;

pub use refusal::Refusal;
pub use status::Status;
