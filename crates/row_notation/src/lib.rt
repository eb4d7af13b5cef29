//! One notation for types, terms and data types, in which the rows of the tests are written. Each part that has parts stands in
//! parentheses.
//!
//! | Text | What it says |
//! |---|---|
//! | `t0`, `8`, `d0` | a type variable, a numeral, a domain |
//! | `(+ a b)`, `(* a b)`, `(> a b)`, `(all Val a)` | a sum, a product, functions, a `forall` |
//! | `(U n)`, `(S n)`, `(B n)`, `(V n a)`, `(G d a)` | `Unsigned`, `Signed`, `BitVector`, vectors, signals |
//! | `(data 0 a b)` | the data type 0 at two types |
//! | `v0`, `g0`, `m0`, `c0`, `addU` | a variable, a definition, a made definition, a constructor, a primitive |
//! | `u0101`, `s01`, `b` | literals by their bits |
//! | `(lam a e)`, `(ty Val e)` | a lambda of a variable of type a, a type lambda |
//! | `(e e @a)` | a term applied to a term and at a type |
//! | `(rec (a e) (a e) e)`, `(vec a e e)` | a letrec, a vector |
//! | `(case e (c3/2 e) (u01 e) (_ e))` | a case; the constructor 3 binds two variables |
//! | `(T Val Cir (A t0) (B))` | a data type with its name, its parameters' kinds and its constructors |
#![tactic(auto)]

pub mod parts;
pub mod reading;
pub mod showing;
mod words;

pub use parts::Parts;
pub use reading::read;
pub use showing::{kind_name, put_data, put_names, put_number, put_term, put_type};
