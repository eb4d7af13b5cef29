//! The parts that the parser has read, with their heights.
ghost use Rattle.std.specs.Prelude.{◌≡◌, ◌≤◌, ◌<◌, Option, List, [], ◌∷◌, Some, None, IfOk, MatchOption};
ghost use Rattle.chw_base.specs.declared.limits.TheConstants.{NESTING};
ghost use Rattle.chw_grammar.specs.Height.{tree_height};
ghost use Rattle.chw_grammar.specs.declared.program.Tree.{Tree};
ghost use Rattle.parser_parts.specs.Actions.{made};
ghost use Rattle.parser_parts.specs.Parts.{Stands, IsPut, IsActed};
ghost use Rattle.parser_parts.specs.declared.value.Value.{Value};

use crate::acting::act;
use crate::action::Action;
use crate::heights::{Measure, raise, shape_of};
use crate::pops::pop;
use crate::stack::Stack;
use crate::value::Value;
use chw_base::NoMemory;
use chw_base::limits::NESTING;
use chw_grammar::{KindTree, Tree, Word};
use std::alloc::Global;

/// The parts that were read. Where one would be higher than 200 all are let go of, and only the heights are kept: so no tree that is
/// made is higher, however long the text is.
#[derive(Drop)]
pub struct Parts {
    values: Option<Stack<Value>>,
    heights: Stack<Measure>,
}

impl Parts {
    /// No parts.
    pub fn new(alloc: Global) -> Parts
        ensures { Stands result [] }
    {
        Parts {
            values: Some(Stack::new(alloc)),
            heights: Stack::new(alloc),
        }
    }

    /// Puts a word on top.
    pub fn push_word(&mut self, word: Word) -> Result<(), NoMemory>
        ensures { IfOk result (λ _. (vs : List Value) → Stands self.old vs → Stands self.new (Value.OneWord word ∷ vs)) }
    {
        put(&mut self.values, Value::OneWord(word))?;
        self.heights.push(Measure {
            height: 0,
            count: 0,
        })
    }

    /// Puts a kind on top.
    pub fn push_kind(&mut self, kind: KindTree) -> Result<(), NoMemory>
        ensures { IfOk result (λ _. (vs : List Value) → Stands self.old vs → Stands self.new (Value.OneKind kind ∷ vs)) }
    {
        put(&mut self.values, Value::OneKind(kind))?;
        self.heights.push(Measure {
            height: 1,
            count: 0,
        })
    }

    /// Does the action with the newest parts, where they are such as it wants.
    pub fn act(&mut self, alloc: Global, action: Action) -> Result<(), NoMemory>
        ensures { IfOk result (λ _. (vs us : List Value) → Stands self.old vs → made action vs ≡ Some us → Stands self.new us) }
    {
        let height = raise(shape_of(action), &mut self.heights)?;
        if height > NESTING {
            self.values = None;
            Ok(())
        } else {
            act_on(alloc, action, &mut self.values)
        }
    }

    /// The tree, where that is the one part and isn't higher than 200.
    pub fn into_tree(self) -> Option<Tree>
        ensures { (tree : Tree) → Stands self (Value.Whole tree ∷ []) → MatchOption result (NESTING < tree_height tree) (λ t. (t ≡ tree) × (tree_height tree ≤ NESTING)) }
    {
        let Parts { values, .. } = self;
        let Some(mut values) = values else {
            return None;
        };
        pop::<Tree>(&mut values)
    }
}

/// Puts a part on top, where they are there.
fn put(values: &mut Option<Stack<Value>>, value: Value) -> Result<(), NoMemory>
    ensures { IfOk result (λ _. IsPut value values.old values.new) }
{
    match values {
        Some(values) => values.push(value),
        None => {
            drop(value);
            Ok(())
        }
    }
}

/// Does the action with the parts, where they are there.
fn act_on(alloc: Global, action: Action, values: &mut Option<Stack<Value>>) -> Result<(), NoMemory>
    ensures { IfOk result (λ _. IsActed action values.old values.new) }
{
    match values {
        Some(values) => act(alloc, action, values),
        None => Ok(()),
    }
}
