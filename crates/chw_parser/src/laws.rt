//! Laws of the grammar.
ghost use Rattle.std.specs.Prelude.{◌≡◌, List};
ghost use Rattle.chw_grammar.specs.Grammar.{Reads};
ghost use Rattle.chw_grammar.specs.Lexemes.{Lexeme};
ghost use Rattle.chw_grammar.specs.declared.program.Tree.{Tree};

/// Tokens have at most one tree.
pub fn one_tree()
    ensures { (lexemes : List Lexeme) (a b : Tree) → Reads lexemes a → Reads lexemes b → a ≡ b }
{}
