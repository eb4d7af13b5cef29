//! Laws of the text of a filter with so many taps.
ghost use Rattle.std.specs.Prelude.{ℕ, ◌<◌, ◌≤◌, ◌^◌, List};
ghost use Rattle.chw_base.specs.declared.limits.TheConstants.{NESTING};
ghost use Rattle.chw_lexer.specs.Tokens.{Tokens};
ghost use Rattle.chw_lexer.specs.declared.token.Token.{Token};
ghost use Rattle.chw_grammar.specs.Grammar.{Reads};
ghost use Rattle.chw_grammar.specs.Height.{tree_height};
ghost use Rattle.chw_grammar.specs.Lexemes.{lexemes_of};
ghost use Rattle.chw_grammar.specs.Places.{Same};
ghost use Rattle.chw_grammar.specs.declared.program.Tree.{Tree};
ghost use Rattle.chw_parser.specs.Faults.{Shallow};
ghost use Rattle.chw_terms.specs.declared.program.Program.{Program};
ghost use Rattle.chw_resolve.specs.Programs.{IsProgramOf};
ghost use Rattle.chw_meaning.specs.Means.{HasPorts};
ghost use Rattle.make_text.specs.MakeText.{make_text};
ghost use Rattle.make_text.specs.MakeTree.{make_tree};
ghost use Rattle.make_laws.specs.MakePorts.{TakesWords, make_ports};

use chw_grammar::laws::{canonical_text_reads_back, canonical_text_splits, places_do_not_show};
use chw_lexer::laws::one_splitting;
use chw_parser::laws::one_tree;
use make_text::laws::made_texts_are_read;
use text_laws::laws::{canonical_text_is_shallow, places_have_no_height};

/// The text is a description: it splits into tokens, which are read as a tree, within the limits on open brackets and on height.
pub fn made_texts_are_descriptions()
    ensures { (taps : ℕ) → taps < 2 ^ 64 → (tokens : List Token) × (tree : Tree) × Tokens (make_text taps) tokens
        × Reads (lexemes_of (make_text taps) tokens) tree × Shallow (lexemes_of (make_text taps) tokens) × (tree_height tree ≤ NESTING) }
{
    made_texts_are_read();
    canonical_text_splits();
    canonical_text_reads_back();
    canonical_text_is_shallow();
    places_do_not_show();
    places_have_no_height();
}

/// Whatever tree the text has is that of the filter, but for the places of its words.
pub fn made_texts_have_the_tree()
    ensures { (taps : ℕ) (tokens : List Token) (tree : Tree) → taps < 2 ^ 64 → Tokens (make_text taps) tokens
        → Reads (lexemes_of (make_text taps) tokens) tree → Same tree (make_tree taps) }
{
    made_texts_are_read();
    one_splitting();
    one_tree();
}

/// The program of such a tree has an input `x` in domain `A` and an output `o` in domain `B`, of 16 bits each, and no resets.
pub fn made_programs_have_ports()
    ensures { (taps : ℕ) (tree : Tree) (p : Program) → Same tree (make_tree taps) → IsProgramOf tree p → HasPorts p make_ports }
{}

/// The input is a signal of words of 16 bits.
pub fn made_programs_take_words()
    ensures { (taps : ℕ) (tree : Tree) (p : Program) → Same tree (make_tree taps) → IsProgramOf tree p → TakesWords p }
{}
