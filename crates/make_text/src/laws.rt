//! Laws of the text.
ghost use Rattle.std.specs.Prelude.{ℕ, ◌<◌, ◌≤◌, ◌^◌, List, length};
ghost use Rattle.chw_base.specs.declared.limits.TheConstants.{DESCRIPTION_BYTES};
ghost use Rattle.chw_lexer.specs.Tokens.{Tokens};
ghost use Rattle.chw_lexer.specs.declared.token.Token.{Token};
ghost use Rattle.chw_grammar.specs.Grammar.{Reads};
ghost use Rattle.chw_grammar.specs.Lexemes.{lexemes_of};
ghost use Rattle.chw_grammar.specs.Places.{Same};
ghost use Rattle.chw_grammar.specs.declared.program.Tree.{Tree};
ghost use Rattle.make_text.specs.MakeText.{make_text};
ghost use Rattle.make_text.specs.MakeTree.{make_tree};

use chw_grammar::laws::{canonical_text_reads_back, canonical_text_splits, places_do_not_show};
use chw_lexer::laws::{spaced_words_are_split, spaced_words_split};

/// The text splits into tokens, which are read as the tree of the filter but for the places of its words.
pub fn made_texts_are_read()
    ensures { (taps : ℕ) → taps < 2 ^ 64 → (tokens : List Token) × (tree : Tree) × Tokens (make_text taps) tokens
        × Reads (lexemes_of (make_text taps) tokens) tree × Same tree (make_tree taps) }
{
    spaced_words_split();
    spaced_words_are_split();
    canonical_text_splits();
    canonical_text_reads_back();
    places_do_not_show();
}

/// The text of up to 64 taps is within the limit on the length of descriptions.
pub fn made_texts_are_short()
    ensures { (taps : ℕ) → taps ≤ 64 → length (make_text taps) ≤ DESCRIPTION_BYTES }
{}
