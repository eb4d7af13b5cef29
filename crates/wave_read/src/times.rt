//! Times with their changes.
ghost use Rattle.std.specs.Prelude.{◌≡◌, [], length};
ghost use Rattle.wave_read.specs.Shown.{count_of, times_of};

use crate::source::{Changed, Moment};
use std::alloc::Global;
use std::marker::Model;

/// Times with their changes, which contracts see as a list.
#[derive(Drop)]
pub struct Times<'a> {
    moments: Vec<Moment>,
    /// The changes of all times, one behind the other.
    changes: Vec<Changed<'a>>,
}

impl<'a> Model for Times<'a> {
    ghost use Rattle.std.specs.Prelude.{◌≡◌, List, length};
    ghost use Rattle.wave_text.specs.VcdText.{Moment as Time};

    ghost Value = { List Time };

    ghost use Rattle.wave_read.specs.Shown.{count_of, times_of};

    ghost view = { λ it. times_of it.moments.items it.changes.items };

    ghost invariant = { λ it. count_of it.moments.items ≡ length it.changes.items };
}

impl<'a> Times<'a> {
    /// No times.
    pub fn none(alloc: Global) -> Times<'a>
        ensures { result ≡ [] }
    {
        Times {
            moments: Vec::new(alloc),
            changes: Vec::new(alloc),
        }
    }

    /// Times, and the changes of all of them, one behind the other.
    pub fn of(moments: Vec<Moment>, changes: Vec<Changed<'a>>) -> Times<'a>
        requires { count_of moments.items ≡ length changes.items }
        ensures { result ≡ times_of moments.items changes.entry.items }
    {
        Times { moments, changes }
    }

    /// The times, and the changes of all of them.
    pub fn parts(&self) -> (&[Moment], &[Changed<'a>])
        ensures times { times_of result.0.now result.1.now ≡ self.now }
        ensures count { count_of result.0.now ≡ length result.1.now }
    {
        (self.moments.as_slice(), self.changes.as_slice())
    }
}
