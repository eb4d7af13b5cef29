//! Types with their kinds.

use crate::seen::Seen;
use chw_types::{Kind, Ty};

/// A type that is written in the description, with its kind.
#[derive(Clone, Copy)]
pub struct Kinded<'t> {
    pub ty: &'t Ty,
    pub kind: Kind,
}

/// A type that was found, with its kind.
#[derive(Drop)]
pub struct Found<'t> {
    pub ty: Seen<'t>,
    pub kind: Kind,
}
