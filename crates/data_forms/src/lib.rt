//! Which bits are encodings of the values of types, worked out once for each type, so that bits are judged without making a value.
#![tactic(auto)]

pub mod forms;
mod making;
mod reading;
mod taking;

pub use forms::{Form, Shape};
pub use making::{put_form, put_forms};
pub use taking::takes;
