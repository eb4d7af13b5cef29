//! A list with a gap.
ghost use Rattle.std.specs.Prelude.{◌≡◌, ◌≤◌, ◌<◌, ◌↔◌, ◌++◌, ◌∷◌, [], take, drop, length, reverse, option_to_list, MatchOption, IsSome, Some, None, OnOk};
ghost use Rattle.std.specs.List.{slice_get};

use chw_base::NoMemory;
use std::alloc::Global;
use std::collections::VecDeque;
use std::marker::Model;

/// A list of items with a gap, which contracts see as the list alone.
///
/// Items are put in at the gap. It moves over those between two such places alone.
/// The first insertion moves the items after its place behind the gap.
/// Where each place is after the one before it, they go from there before the gap again: each item is moved at most twice in all.
#[derive(Drop)]
pub struct GapBuffer<T> {
    /// The items before the gap.
    before: Vec<T>,
    /// The items behind it.
    behind: VecDeque<T>,
}

impl<T> Model for GapBuffer<T> {
    ghost use Rattle.std.specs.Prelude.{List, ◌++◌};

    ghost Value = { List T };

    ghost view = { λ b. b.before.items ++ b.behind.items };
}

impl<T: Drop> GapBuffer<T> {
    /// A list of these items, with the gap behind all of them.
    pub fn of(alloc: Global, items: Vec<T>) -> GapBuffer<T>
        ensures { result ≡ items.items }
    {
        GapBuffer {
            before: items,
            behind: VecDeque::new(alloc),
        }
    }

    /// How many items there are.
    pub fn len(&self) -> usize
        ensures { result ≡ length self.now }
    {
        self.before.len() + self.behind.len()
    }

    /// The item of this number, where the last one has number 0.
    pub fn from_end(&self, number: usize) -> Option<&T>
        ensures { MatchOption result (slice_get (reverse self.now) number ≡ None) (λ t. slice_get (reverse self.now) number ≡ Some t.now) }
    {
        let count = self.len();
        if count <= number {
            return None;
        }
        let at = count - 1 - number;
        if at < self.before.len() {
            return Some(&self.before[at]);
        }
        self.behind.get(at - self.before.len())
    }

    /// The items in three parts, each in order.
    pub fn parts(&self) -> (&[T], &[T], &[T])
        ensures { result.0.now ++ result.1.now ++ result.2.now ≡ self.now }
    {
        let (behind, last) = self.behind.as_slices();
        (self.before.as_slice(), behind, last)
    }

    /// Puts an item behind all others.
    pub fn push(&mut self, item: T) -> Result<(), NoMemory>
        ensures { OnOk result (self.new ≡ self.old ++ item ∷ []) }
    {
        if self.behind.is_empty() {
            self.before.push(item)?;
            return Ok(());
        }
        self.behind.push_back(item)?;
        Ok(())
    }

    /// Takes the last item out, if there is one.
    pub fn pop(&mut self) -> Option<T>
        ensures items { self.old ≡ self.new ++ option_to_list result }
        ensures variant { IsSome result ↔ (0 < length self.old) }
    {
        if self.behind.is_empty() {
            return self.before.pop();
        }
        self.behind.pop_back()
    }

    /// Takes the items behind the first so many out.
    pub fn truncate(&mut self, count: usize)
        ensures { self.new ≡ take count self.old }
    {
        if count <= self.before.len() {
            self.behind.clear();
            self.before.truncate(count);
            return;
        }
        self.behind.truncate(count - self.before.len());
    }

    /// Puts items in, behind the first so many. The gap is behind them then.
    pub fn insert_all(&mut self, at: usize, items: Vec<T>) -> Result<(), NoMemory>
        requires { at ≤ length self.old }
        ensures { OnOk result (self.new ≡ take at self.old ++ items.items ++ drop at self.old) }
    {
        let mut items = items;
        move_back(&mut self.before, &mut self.behind, at)?;
        move_up(&mut self.before, &mut self.behind, at)?;
        self.before.append(&mut items)?;
        Ok(())
    }
}

// Moves items over the gap, from before it, so that not more than so many stay there.
fn move_back<T: Drop>(
    before: &mut Vec<T>,
    behind: &mut VecDeque<T>,
    at: usize,
) -> Result<(), NoMemory>
    ensures same { OnOk result (before.new.items ++ behind.new.items ≡ before.old.items ++ behind.old.items) }
    ensures at { OnOk result (length before.new.items ≤ at) }
{
    while at < before.len() {
        let Some(item) = before.pop() else {
            break;
        };
        behind.push_front(item)?;
    }
    Ok(())
}

// Moves items over the gap, from behind it, so that so many are before it, if there are as many.
fn move_up<T: Drop>(
    before: &mut Vec<T>,
    behind: &mut VecDeque<T>,
    at: usize,
) -> Result<(), NoMemory>
    requires few { length before.old.items ≤ at }
    requires some { at ≤ length (before.old.items ++ behind.old.items) }
    ensures same { OnOk result (before.new.items ++ behind.new.items ≡ before.old.items ++ behind.old.items) }
    ensures at { OnOk result (length before.new.items ≡ at) }
{
    while before.len() < at {
        let Some(item) = behind.pop_front() else {
            break;
        };
        before.push(item)?;
    }
    Ok(())
}
