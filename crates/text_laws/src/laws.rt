//! Laws of the parser and the canonical text.
ghost use Rattle.std.specs.Prelude.{◌≡◌, ◌≤◌, ℕ, List, length};
ghost use Rattle.chw_base.specs.declared.limits.TheConstants.{NESTING};
ghost use Rattle.chw_lexer.specs.Tokens.{Tokens};
ghost use Rattle.chw_lexer.specs.declared.token.Token.{Token};
ghost use Rattle.chw_grammar.specs.Grammar.{Reads};
ghost use Rattle.chw_grammar.specs.Height.{tree_height};
ghost use Rattle.chw_grammar.specs.Lexemes.{lexemes_of};
ghost use Rattle.chw_grammar.specs.Places.{Same};
ghost use Rattle.chw_grammar.specs.Text.{Text};
ghost use Rattle.chw_grammar.specs.declared.program.Tree.{Tree};
ghost use Rattle.chw_parser.specs.Faults.{IsFault, Shallow};
ghost use Rattle.chw_parser.specs.declared.parsing.ParseFault.{ParseFault};

use chw_grammar::laws::canonical_text_reads_back;
use chw_lexer::laws::{spaced_words_are_split, words_are_tokens};
use chw_parser::laws::one_tree;

/// In the canonical text of a tree that was read from a text and is no higher than 200, no more than 200 brackets are open.
pub fn canonical_text_is_shallow()
    ensures { (text : List ℕ) (tokens others : List Token) (tree : Tree) → Tokens text tokens → Reads (lexemes_of text tokens) tree
        → tree_height tree ≤ NESTING → Tokens (Text tree) others → Shallow (lexemes_of (Text tree) others) }
{
    words_are_tokens();
    spaced_words_are_split();
}

/// Trees that agree in all but the places of their words are equally high.
pub fn places_have_no_height()
    ensures { (a b : Tree) → Same a b → tree_height a ≡ tree_height b }
{}

/// The parser has no fault in the canonical text of a tree that was read from a text and is no higher than 200: no token of it is wrong, no
/// more than 200 brackets are open, and its tree is no higher.
pub fn canonical_text_has_no_fault()
    ensures { (text : List ℕ) (tokens others : List Token) (tree : Tree) (fault : ParseFault) → Tokens text tokens → Reads (lexemes_of text tokens) tree
        → tree_height tree ≤ NESTING → Tokens (Text tree) others → IsFault (length (Text tree)) (lexemes_of (Text tree) others) fault → ⊥ }
{
    canonical_text_is_shallow();
    canonical_text_reads_back();
    one_tree();
}
