//! What all crates of `chw` stand on: the indices, the small list type that contracts see as a list, the answers of calls that may
//! find no memory, the limits, and the shelf and the sinks by which the program reaches the outside.
#![tactic(auto)]

mod calls;
pub mod file_shelf;
pub mod index;
pub mod limits;
pub mod mem_shelf;
pub mod mem_sink;
mod numbers;
pub mod outcome;
pub mod seq;
pub mod shelf;
pub mod sink;
pub mod std_sink;

pub use file_shelf::FileShelf;
pub use index::{
    ConId, DataId, DefId, DomId, Index, MadeId, ModId, TyIx, VarIx, WireId, law_of_index,
};
pub use mem_shelf::MemShelf;
pub use mem_sink::MemSink;
pub use numbers::narrow;
pub use outcome::{NoMemory, Or};
pub use seq::{Name, Seq};
pub use shelf::{Fetched, Shelf, ShelfFault};
pub use sink::{Sink, SinkFault};
pub use std_sink::StdSink;
