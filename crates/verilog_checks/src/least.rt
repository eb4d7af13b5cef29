//! The least place at which a rule is broken.
ghost use Rattle.std.specs.Prelude.{◌≡◌, None};
ghost use Rattle.verilog_rules.specs.Checks.{broken_at, check, lesser};

use std::marker::Model;

/// The least place of the checks so far that don't hold, which contracts see.
#[derive(Drop)]
pub struct Least {
    at: Option<usize>,
}

impl Model for Least {
    ghost use Rattle.std.specs.Prelude.{Option, ℕ};

    ghost Value = { Option ℕ };

    ghost view = { λ l. l.at };
}

impl Least {
    /// No check so far.
    pub fn new() -> Least
        ensures { result ≡ None }
    {
        Least { at: None }
    }

    /// A check at this place.
    pub fn check(&mut self, at: usize, holds: bool)
        ensures { self.new ≡ lesser self.old (broken_at (check at holds)) }
    {
        if holds {
            return;
        }
        self.at = match self.at {
            Some(least) => Some(least.min(at)),
            None => Some(at),
        };
    }

    /// The least place, where a check doesn't hold.
    pub fn place(&self) -> Option<usize>
        ensures { result ≡ self.now }
    {
        self.at
    }
}
