//! Where a search stands in a state, from which on it looks for the next step.
ghost use Rattle.std.specs.Prelude.{◌≡◌, List, [], IfOk};
ghost use Rattle.chw_terms.specs.declared.program.Program.{Program};
ghost use Rattle.chw_terms.specs.declared.scene.Made.{Made};
ghost use Rattle.rewriting.specs.Typed.{IsTypedScene};
ghost use Rattle.term_frames.specs.Signatures.{IsSignature};
ghost use Rattle.trials.specs.Trials.{built};
ghost use Rattle.step_search.specs.Finding.{Moves, Suits};
ghost use Rattle.step_search.specs.FoundSteps.{FindsNext};
ghost use Rattle.step_search.specs.Seen.{LooksFrom};

use crate::place::Found;
use crate::state::next_from;
use active_parts::SpareTypes;
use chw_base::{MadeId, NoMemory};
use chw_terms::Scene;
use made_table::Table;
use std::alloc::Global;
use term_types::Signature;
use trials::Rules;

/// A place of a state at which a search stands: a made definition, and a path in its body.
///
/// It suits a state of which each step is at that place, above it, or after it. When it has found a step it stands at its place, and by
/// `laws::search_suits_next_state` it suits the state to which that step leads.
#[derive(Drop)]
pub struct Finder {
    pub made: MadeId,
    pub path: Vec<u32>,
}

impl Finder {
    /// A search that stands at the root of the first made definition. It suits each state.
    pub fn open(alloc: Global) -> Finder
        ensures first { result.made.number ≡ 0 }
        ensures root { result.path.items ≡ [] }
        ensures suits { (p : Program) (made : List Made) → Suits p made result }
    {
        Finder {
            made: MadeId { number: 0 },
            path: Vec::new(alloc),
        }
    }

    /// The first step of a state that the search suits, how it changes the term at its place, and the made definition that it adds, if it
    /// adds one. Nothing comes exactly where there is none. The search stands then at the place of the step. Where there is none, or memory
    /// is wanting, it stands where it stood.
    ///
    /// At each place at which it looks, each of the twenty-one rules is one look at most. It looks at active places of the state: at that
    /// at which it stands, above it, and after it, up to the place of the step.
    ///
    /// The scene is typed, its made definitions are those of the table, and the signature is that of its program.
    /// Where a number would pass 32 bits, the answer is want of memory.
    pub fn next<R: Rules>(
        &mut self,
        alloc: Global,
        table: &Table,
        scene: &Scene,
        signature: &Signature,
        spare: &mut SpareTypes,
        rules: &mut R,
    ) -> Result<Option<Found>, NoMemory>
        requires same { scene.now.made.now ≡ table.now }
        requires typed { IsTypedScene scene.now }
        requires table { IsSignature scene.now.program.now signature.now }
        requires suits { Suits scene.now.program.now scene.now.made.now self.old }
        ensures first { IfOk result (FindsNext built scene.now.program.now scene.now.made.now) }
        ensures moves { Moves result self.old self.new }
        ensures looks { LooksFrom built scene.now.program.now scene.now.made.now self.old.made.number self.old.path.items (R.looks rules.old) (R.looks rules.new) }
    {
        let Some(found) = next_from(alloc, table, scene, signature, self, spare, rules)? else {
            return Ok(None);
        };
        let path = found.at.path.clone()?;
        self.made = found.at.made;
        self.path = path;
        Ok(Some(found))
    }
}
