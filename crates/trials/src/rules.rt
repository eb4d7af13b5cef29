//! What tries the rules.
ghost use Rattle.std.specs.Prelude.{◌≡◌, ◌≤◌, ◌+◌, [], reverse, IfOk};
ghost use Rattle.chw_types.specs.References.{HasNoCycle};
ghost use Rattle.chw_typing.specs.Scopes.{setting_in};
ghost use Rattle.rewriting.specs.Spots.{spot_of};
ghost use Rattle.term_types.specs.Answers.{IsReady};
ghost use Rattle.term_frames.specs.Signatures.{IsSignature};
ghost use Rattle.trials.specs.Trials.{built, HasSomeType, IsFirstIn};

use crate::trial::Trial;
use chw_base::NoMemory;
use chw_terms::{Place, Scene, Term};
use looks::Looks;
use made_table::Table;
use std::alloc::Global;
use term_types::Signature;

/// What tries the rules, and counts the looks at them.
pub trait Rules: Looks {
    /// The first rule with an instance on a term at a place, how it changes the term, and the made
    /// definition that it adds where it is the rule of made definitions and none in the table has
    /// the origin. Nothing comes exactly where no rule has an instance.
    /// What the rule that joins letrecs makes of the term isn't made here.
    ///
    /// Each rule that is tried is one look, so there are twenty-one at most.
    ///
    /// The scene's made definitions are those of the table. No data type leads back to itself and
    /// the scene is sound, as in every typed program. Terms have the types of the variables in
    /// scope at the place, and the term has a type there. The signature is that of the scene's
    /// program.
    /// Where a number would pass 32 bits, the answer is want of memory.
    fn first_rule(
        &mut self,
        alloc: Global,
        table: &Table,
        scene: &Scene,
        signature: &Signature,
        at: &Term,
        place: &Place,
    ) -> Result<Option<Trial>, NoMemory>
        requires same { scene.now.made.now ≡ table.now }
        requires order { HasNoCycle scene.now.program.now.datas }
        requires ready { IsReady (setting_in scene.now) [] (reverse place.now.vars) }
        requires table { IsSignature scene.now.program.now signature.now }
        requires typed { HasSomeType (setting_in scene.now) (reverse place.now.vars) at.now }
        ensures first { IfOk result (IsFirstIn built scene.now (spot_of place.now) at.now) }
        ensures looks { Self.looks self.new ≤ Self.looks self.old + 21 };
}
