//! What a token is to the grammar.
ghost use Rattle.std.specs.Prelude.{◌≡◌};
ghost use Rattle.chw_grammar.specs.Lexemes.{keyword_terminal, symbol_terminal, upper_terminal, terminal_of};

use chw_lexer::Sort;

/// What a token is to the grammar: a keyword, a symbol, or a sort of name, numeral or literal.
#[derive(Clone, Copy, Debug, PartialEq, Eq)]
pub enum Terminal {
    /// `domain`
    Domain,
    /// `data`
    Data,
    /// `def`
    Def,
    /// `top`
    Top,
    /// `letrec`
    Letrec,
    /// `in`
    In,
    /// `case`
    Case,
    /// `of`
    Of,
    /// `forall`
    Forall,
    /// `vec`
    Vec,
    /// `;`
    Semicolon,
    /// `:`
    Colon,
    /// `=`
    Equals,
    /// `|`
    Bar,
    /// `(`
    Open,
    /// `)`
    Close,
    /// `{`
    OpenBrace,
    /// `}`
    CloseBrace,
    /// `[`
    OpenBracket,
    /// `]`
    CloseBracket,
    /// `,`
    Comma,
    /// `.`
    Dot,
    /// `\`
    Lambda,
    /// `/\`
    TypeLambda,
    /// `@`
    At,
    /// `->`
    Arrow,
    /// `+`
    Plus,
    /// `*`
    Star,
    /// `_`
    Underscore,
    /// A lower name.
    Lower,
    /// An upper name that is no kind.
    Upper,
    /// `Nat`, which may also stand where an upper name does, as the other kinds may.
    Nat,
    /// `Dom`
    Dom,
    /// `Val`
    Val,
    /// `Cir`
    Cir,
    /// A numeral.
    Numeral,
    /// A literal.
    Literal,
    /// The end of the text.
    End,
}

impl Terminal {
    /// The terminal of a token of this sort that has these bytes.
    pub fn of(sort: Sort, bytes: &[u8]) -> Terminal
        ensures { result ≡ terminal_of sort bytes.now }
    {
        match sort {
            Sort::Lower => Terminal::Lower,
            Sort::Upper => of_upper(bytes),
            Sort::Key => of_keyword(bytes),
            Sort::Numeral => Terminal::Numeral,
            Sort::Literal => Terminal::Literal,
            Sort::Symbol => of_symbol(bytes),
        }
    }
}

fn of_upper(bytes: &[u8]) -> Terminal
    ensures { result ≡ upper_terminal bytes.now }
{
    if bytes == "Nat".as_bytes() {
        Terminal::Nat
    } else if bytes == "Dom".as_bytes() {
        Terminal::Dom
    } else if bytes == "Val".as_bytes() {
        Terminal::Val
    } else if bytes == "Cir".as_bytes() {
        Terminal::Cir
    } else {
        Terminal::Upper
    }
}

fn of_keyword(bytes: &[u8]) -> Terminal
    ensures { result ≡ keyword_terminal bytes.now }
{
    if bytes == "domain".as_bytes() {
        Terminal::Domain
    } else if bytes == "data".as_bytes() {
        Terminal::Data
    } else if bytes == "def".as_bytes() {
        Terminal::Def
    } else if bytes == "top".as_bytes() {
        Terminal::Top
    } else if bytes == "letrec".as_bytes() {
        Terminal::Letrec
    } else if bytes == "in".as_bytes() {
        Terminal::In
    } else if bytes == "case".as_bytes() {
        Terminal::Case
    } else if bytes == "of".as_bytes() {
        Terminal::Of
    } else if bytes == "forall".as_bytes() {
        Terminal::Forall
    } else {
        Terminal::Vec
    }
}

fn of_symbol(bytes: &[u8]) -> Terminal
    ensures { result ≡ symbol_terminal bytes.now }
{
    match bytes {
        [b';'] => Terminal::Semicolon,
        [b':'] => Terminal::Colon,
        [b'='] => Terminal::Equals,
        [b'|'] => Terminal::Bar,
        [b'('] => Terminal::Open,
        [b')'] => Terminal::Close,
        [b'{'] => Terminal::OpenBrace,
        [b'}'] => Terminal::CloseBrace,
        [b'['] => Terminal::OpenBracket,
        [b']'] => Terminal::CloseBracket,
        [b','] => Terminal::Comma,
        [b'.'] => Terminal::Dot,
        [b'\\'] => Terminal::Lambda,
        [b'/', b'\\'] => Terminal::TypeLambda,
        [b'@'] => Terminal::At,
        [b'-', b'>'] => Terminal::Arrow,
        [b'+'] => Terminal::Plus,
        [b'*'] => Terminal::Star,
        _ => Terminal::Underscore,
    }
}
