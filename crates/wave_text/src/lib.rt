//! Texts of waves: which texts are waves, which wave each is, what is wrong with the others, and
//! the laws that tie them to the printed text.
#![tactic(auto)]

pub mod fault;
pub mod laws;
pub mod wave;

pub use fault::{VcdCode, VcdFault};
pub use wave::{Change, Wave, WaveStep};
