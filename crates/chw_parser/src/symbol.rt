//! The symbols of which the parser's productions consist.
use chw_grammar::Terminal;
use parser_parts::Action;

/// What a production has in one place.
#[derive(Clone, Copy)]
pub enum Symbol {
    /// This token.
    Token(Terminal),
    /// A token that becomes a word of the tree.
    Word(WordSort),
    /// A token that is a kind.
    Kind,
    /// A token that is the lower name `reset`.
    Reset,
    /// What a rule of the grammar says.
    Part(Rule),
    /// No token: what was read so far becomes a part of the tree.
    Act(Action),
}

/// The sorts of words.
#[derive(Clone, Copy)]
pub enum WordSort {
    Lower,
    Upper,
    Numeral,
    Literal,
}

/// The rules of the grammar, in the form in which the next token alone says how each goes on.
#[derive(Clone, Copy)]
pub enum Rule {
    /// A whole description.
    Program,
    /// The declarations that are left, and the top.
    Declarations,
    /// What is behind the name of a domain: `;`, or `reset` and `;`.
    DomainEnd,
    /// The parameters that are left.
    Parameters,
    /// A constructor and its fields.
    Constructor,
    /// The constructors that are left.
    Constructors,
    /// The simple types that are left.
    Atoms,
    /// Names of inputs, or nothing.
    Inputs,
    /// The names of inputs or outputs that are left.
    Ports,
    /// The names of a pattern that are left.
    Fields,
    Type,
    /// `->` and a type, or nothing.
    ArrowTail,
    /// Signs `+` and their right sides, or nothing.
    SumTail,
    /// The signs `+` that are left.
    SumMore,
    Product,
    /// Signs `*` and their right sides, or nothing.
    ProductTail,
    /// The signs `*` that are left.
    ProductMore,
    /// An upper name with arguments, or a simple type.
    Applied,
    /// A simple type.
    Atom,
    Term,
    /// The bindings that are left.
    Bindings,
    /// The alternatives that are left.
    Alternatives,
    /// Arguments, or nothing.
    ApplyTail,
    /// The arguments that are left.
    Arguments,
    Argument,
    /// A simple term.
    Simple,
    /// Elements, or nothing.
    Elements,
    /// The elements that are left.
    MoreElements,
}
