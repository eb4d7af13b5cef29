//! Laws of the canonical text, and what the parts of a literal are.
ghost use Rattle.std.specs.Prelude.{◌≡◌, ℕ, List, ◌∷◌, ◌++◌, true, false};
ghost use Rattle.chw_base.specs.Names.{is_digit};
ghost use Rattle.chw_lexer.specs.Forms.{IsNumeral};
ghost use Rattle.chw_lexer.specs.Tokens.{Tokens};
ghost use Rattle.chw_lexer.specs.declared.token.Token.{Token};
ghost use Rattle.chw_grammar.specs.Grammar.{Reads};
ghost use Rattle.chw_grammar.specs.Lexemes.{Lexeme, lexemes_of};
ghost use Rattle.chw_grammar.specs.Literals.{literal_of, parts};
ghost use Rattle.chw_grammar.specs.Places.{Same};
ghost use Rattle.chw_grammar.specs.Text.{tree_lexemes, Text};
ghost use Rattle.chw_grammar.specs.declared.program.Tree.{Tree};

use chw_lexer::laws::{spaced_words_are_split, spaced_words_split, words_are_tokens};

/// The tokens of the canonical text of a tree that was read are read as that tree.
pub fn canonical_tokens_read_back()
    ensures { (lexemes : List Lexeme) (tree : Tree) → Reads lexemes tree → Reads (tree_lexemes tree) tree }
{}

/// The canonical text of a tree that was read from a text splits into tokens.
pub fn canonical_text_splits()
    ensures { (text : List ℕ) (tokens : List Token) (tree : Tree) → Tokens text tokens → Reads (lexemes_of text tokens) tree
        → (others : List Token) × Tokens (Text tree) others }
{
    words_are_tokens();
    spaced_words_split();
}

/// The tokens of the canonical text of a tree that was read from a text are read as the same tree but for the places of its words, and
/// its canonical text is the same text.
pub fn canonical_text_reads_back()
    ensures { (text : List ℕ) (tokens others : List Token) (tree : Tree) → Tokens text tokens → Reads (lexemes_of text tokens) tree
        → Tokens (Text tree) others → (again : Tree) × Reads (lexemes_of (Text tree) others) again × Same again tree × (Text again ≡ Text tree) }
{
    words_are_tokens();
    spaced_words_are_split();
}

/// Trees that agree in all but the places of their words have one canonical text.
pub fn places_do_not_show()
    ensures { (a b : Tree) → Same a b → Text a ≡ Text b }
{}

/// A literal has the sign, the value, the letter and the width of which it is made.
pub fn literals_have_their_parts()
    ensures without_sign { (value width : List ℕ) (byte : ℕ) → IsNumeral value → is_digit byte ≡ false
        → literal_of (value ++ byte ∷ width) ≡ parts false value byte width }
    ensures with_sign { (value width : List ℕ) (byte : ℕ) → IsNumeral value → is_digit byte ≡ false
        → literal_of (45 ∷ (value ++ byte ∷ width)) ≡ parts true value byte width }
{}
