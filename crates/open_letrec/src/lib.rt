//! A letrec that is taken apart: its right sides are looked at and changed one by one, letrecs in them join it, and it is put together.
//! A letrec that joins changes no other right side in memory.
#![tactic(auto)]

pub mod laws;
mod opened;
mod parts;
mod places;

pub use opened::OpenLetrec;
