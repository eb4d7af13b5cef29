//! The classes of equal wires of a flat net, and the wires of which bits are known.
//!
//! What is found is a label for each wire and marks of known wires. `search` finds them cell by
//! cell, and looks at a cell again where what it reads got another label or a mark. Each is true,
//! and no clause says that none is missed. `steps` then takes the steps that are left, and looks at
//! each cell once to see that none is. Each of these steps costs a look at the whole net, so the
//! time rests on it that the search misses nothing. The classes don't.
#![tactic(auto)]

mod agreeing;
mod cells;
mod clash;
mod classes;
mod copies;
mod keys;
mod labels;
mod marked;
mod marks;
mod partition;
mod search;
mod steps;
mod values;
mod work;

pub use classes::Classes;
pub use partition::classes_of;
