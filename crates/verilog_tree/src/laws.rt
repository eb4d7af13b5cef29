//! Laws of trees. Each is a function that does nothing, and says its law of all trees.
ghost use Rattle.std.specs.Prelude.{◌≡◌, ℕ, List};
ghost use Rattle.verilog_text.specs.Grammar.{IsSource};
ghost use Rattle.verilog_text.specs.VTokens.{Placed};
ghost use Rattle.verilog_tree.specs.Marks.{IsTreeOf};
ghost use Rattle.verilog_tree.specs.Sources.{source_of};
ghost use Rattle.verilog_tree.specs.Syntax.{IsSyntaxFault};
ghost use Rattle.verilog_tree.specs.declared.module.Tree.{Tree};

/// The tokens from which a tree was read are those of its source.
pub fn trees_are_sources()
    ensures { (tokens : List Placed) (tree : Tree) → IsTreeOf tokens tree → IsSource tokens (source_of tree) }
{}

/// Tokens have at most one place at which they stop to be a text.
pub fn one_syntax_fault()
    ensures { (length : ℕ) (tokens : List Placed) (a b : ℕ) → IsSyntaxFault length tokens a → IsSyntaxFault length tokens b → a ≡ b }
{}

/// Tokens from which a tree was read have no such place.
pub fn no_tree_has_a_syntax_fault()
    ensures { (length : ℕ) (tokens : List Placed) (tree : Tree) (at : ℕ) → IsTreeOf tokens tree → IsSyntaxFault length tokens at → ⊥ }
{}
