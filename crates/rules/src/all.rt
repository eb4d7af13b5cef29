//! All rules, as a search and a run try them.
ghost use Rattle.std.specs.Prelude.{◌≡◌};

use crate::first::first_rule;
use chw_base::NoMemory;
use chw_terms::{Place, Scene, Term};
use looks::{LookCount, Looks};
use made_table::Table;
use std::alloc::Global;
use term_types::Signature;
use trials::{Rules, Trial};

/// All rules, and a count of the looks at them.
#[derive(Debug, Drop)]
pub struct AllRules {
    looks: LookCount,
}

impl AllRules {
    /// All rules, at none of which it was looked yet.
    pub fn new() -> AllRules
        ensures { result.looks ≡ 0 }
    {
        AllRules {
            looks: LookCount::new(),
        }
    }
}

impl Looks for AllRules {
    ghost looks = { λ r. r.looks };

    fn look(&mut self) {
        self.looks.look();
    }
}

impl Rules for AllRules {
    fn first_rule(
        &mut self,
        alloc: Global,
        table: &Table,
        scene: &Scene,
        signature: &Signature,
        at: &Term,
        place: &Place,
    ) -> Result<Option<Trial>, NoMemory> {
        first_rule(alloc, table, scene, signature, at, place, self)
    }
}
