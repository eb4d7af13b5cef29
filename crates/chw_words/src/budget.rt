//! Budgets: how many rewrites a command may make.
ghost use Rattle.std.specs.Prelude.{ℕ, MatchOption};
ghost use Rattle.chw_words.specs.Commands.{IsBudget};

use crate::number::read_number;

/// The most digits of a budget.
pub const BUDGET_DIGITS: usize = 8;
/// The greatest budget.
pub const MOST_BUDGET: u32 = 10_000_000;
/// The budget where the words say none.
pub const DEFAULT_BUDGET: u32 = 100_000;

/// The budget that a word is: 1 to 8 decimal digits, and at most 10,000,000.
pub fn read_budget(word: &str) -> Option<u32>
    ensures { MatchOption result ((n : ℕ) → IsBudget word.now n → ⊥) (IsBudget word.now) }
{
    read_number(word, BUDGET_DIGITS, MOST_BUDGET)
}
