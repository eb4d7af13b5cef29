//! Laws of the splitting of a text.
ghost use Rattle.std.specs.Prelude.{◌≡◌, ℕ, List, length, All};
ghost use Rattle.chw_lexer.specs.Tokens.{Tokens, NoToken, InOrder};
ghost use Rattle.chw_lexer.specs.Words.{LiesIn, Word, words_of, IsToken, Spaced};
ghost use Rattle.chw_lexer.specs.declared.token.Token.{Token};

/// A text splits into at most one list of tokens.
pub fn one_splitting()
    ensures { (text : List ℕ) (a b : List Token) → Tokens text a → Tokens text b → a ≡ b }
{}

/// At most one place of a text is the first at which no token begins.
pub fn one_fault()
    ensures { (text : List ℕ) (a b : ℕ) → NoToken text a → NoToken text b → a ≡ b }
{}

/// A text that splits into tokens has no place at which none begins.
pub fn no_fault()
    ensures { (text : List ℕ) (tokens : List Token) (at : ℕ) → Tokens text tokens → NoToken text at → ⊥ }
{}

/// The tokens of a text stand in it one behind the other.
pub fn tokens_in_order()
    ensures { (text : List ℕ) (tokens : List Token) → Tokens text tokens → InOrder 0 (length text) tokens }
{}

/// Each token of a text lies in it.
pub fn tokens_lie_in()
    ensures { (text : List ℕ) (tokens : List Token) → Tokens text tokens → All (LiesIn text) tokens }
{}

/// The word of each token of a text is a token of its sort.
pub fn words_are_tokens()
    ensures { (text : List ℕ) (tokens : List Token) → Tokens text tokens → All IsToken (words_of text tokens) }
{}

/// Words that are tokens, with a space or a line feed behind each, make a text that splits.
pub fn spaced_words_split()
    ensures { (text : List ℕ) (words : List Word) → Spaced text words → (tokens : List Token) × Tokens text tokens }
{}

/// Such a text splits into exactly these words.
pub fn spaced_words_are_split()
    ensures { (text : List ℕ) (words : List Word) (tokens : List Token) → Spaced text words → Tokens text tokens → words_of text tokens ≡ words }
{}
