//! What stands in a text of waves.

use crate::times::Times;

/// A declared variable, and the place of its code.
#[derive(Clone, Copy)]
pub struct Declared<'a> {
    pub at: u32,
    pub width: u32,
    pub code: &'a [u8],
    pub name: &'a [u8],
}

/// A change: the places of its value and of its code, the code, and the digits of the value.
#[derive(Clone, Copy)]
pub struct Changed<'a> {
    pub at: u32,
    pub code_at: u32,
    pub code: &'a [u8],
    pub digits: &'a [u8],
}

/// A time, its place, and how many changes it has.
#[derive(Clone, Copy)]
pub struct Moment {
    pub at: u32,
    pub time: u64,
    pub count: usize,
}

/// The declarations and the times of a text.
#[derive(Drop)]
pub struct Source<'a> {
    pub declared: Vec<Declared<'a>>,
    pub times: Times<'a>,
}
