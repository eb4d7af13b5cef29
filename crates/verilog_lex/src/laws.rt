//! Laws of the splitting of a Verilog text.
ghost use Rattle.std.specs.Prelude.{◌⊎◌, ℕ, List, length};
ghost use Rattle.std.specs.List.{AllByRecursion};
ghost use Rattle.verilog_text.specs.VTokens.{NoVToken, Placed, VTokens};
ghost use Rattle.verilog_lex.specs.Splitting.{AreInOrder, HasItsForm};

/// A text splits into tokens, or it has a first place where no token begins.
pub fn each_text_splits_or_has_such_a_place()
    ensures { (text : List ℕ) → ((tokens : List Placed) × VTokens text tokens) ⊎ ((at : ℕ) × NoVToken text at) }
{}

/// Each token of a text has the form of its sort.
pub fn tokens_have_their_forms()
    ensures { (text : List ℕ) (tokens : List Placed) → VTokens text tokens → AllByRecursion HasItsForm tokens }
{}

/// The tokens of a text stand in it one behind the other.
pub fn tokens_in_order()
    ensures { (text : List ℕ) (tokens : List Placed) → VTokens text tokens → AreInOrder 0 (length text) tokens }
{}
