//! A stack, which contracts see as the list of its items, the newest first.
ghost use Rattle.std.specs.Prelude.{◌≡◌, [], ◌∷◌, IfOk, MatchOption};
ghost use Rattle.parser_parts.specs.Stacks.{onto};

use chw_base::NoMemory;
use std::alloc::Global;
use std::marker::Model;

/// Items of which the newest leaves first.
#[derive(Drop)]
pub struct Stack<T> {
    items: Vec<T>,
}

impl<T> Model for Stack<T> {
    ghost use Rattle.std.specs.Prelude.{List, []};
    ghost use Rattle.parser_parts.specs.Stacks.{onto};

    ghost Value = { List T };

    ghost view = { λ s. onto s.items.items [] };
}

impl<T> Stack<T> {
    /// No items.
    pub fn new(alloc: Global) -> Stack<T>
        ensures { result ≡ [] }
    {
        Stack {
            items: Vec::new(alloc),
        }
    }

    /// Puts an item on top.
    pub fn push(&mut self, item: T) -> Result<(), NoMemory>
    where
        T: Drop,
        ensures { IfOk result (λ _. self.new ≡ item ∷ self.old) }
    {
        self.items.push(item)?;
        Ok(())
    }

    /// The stack with an item put on top.
    pub fn with(self, item: T) -> Result<Stack<T>, NoMemory>
    where
        T: Drop,
        ensures { IfOk result (λ stack. stack ≡ item ∷ self) }
    {
        let mut stack = self;
        stack.push(item)?;
        Ok(stack)
    }

    /// Takes the item on top.
    pub fn pop(&mut self) -> Option<T>
        ensures { MatchOption result ((self.old ≡ []) × (self.new ≡ [])) (λ item. self.old ≡ item ∷ self.new) }
    {
        self.items.pop()
    }

    /// The items, the oldest first.
    pub fn into_vec(self) -> Vec<T>
        ensures { result.items ≡ onto self [] }
    {
        self.items
    }
}
