//! How the rules of terms and patterns go on, by the next terminal.
ghost use Rattle.std.specs.Prelude.{◌≡◌, MatchOption, Some, None};
ghost use Rattle.chw_parser.specs.Productions.{production};

use crate::symbol::{Rule, Symbol, WordSort};
use chw_grammar::Terminal;
use parser_parts::Action;

pub fn of_fields(next: Terminal) -> Option<&'static [Symbol]>
    ensures { MatchOption result (production Rule.Fields next ≡ None) (λ symbols. production Rule.Fields next ≡ Some symbols.now) }
{
    match next {
        Terminal::Lower => Some(&[
            Symbol::Word(WordSort::Lower),
            Symbol::Act(Action::Word),
            Symbol::Part(Rule::Fields),
        ]),
        _ => Some(&[]),
    }
}

pub fn of_term(next: Terminal) -> Option<&'static [Symbol]>
    ensures { MatchOption result (production Rule.Term next ≡ None) (λ symbols. production Rule.Term next ≡ Some symbols.now) }
{
    match next {
        Terminal::Lambda => Some(&[
            Symbol::Token(Terminal::Lambda),
            Symbol::Token(Terminal::Open),
            Symbol::Word(WordSort::Lower),
            Symbol::Token(Terminal::Colon),
            Symbol::Part(Rule::Type),
            Symbol::Token(Terminal::Close),
            Symbol::Token(Terminal::Dot),
            Symbol::Part(Rule::Term),
            Symbol::Act(Action::Lambda),
        ]),
        Terminal::TypeLambda => Some(&[
            Symbol::Token(Terminal::TypeLambda),
            Symbol::Token(Terminal::Open),
            Symbol::Word(WordSort::Lower),
            Symbol::Token(Terminal::Colon),
            Symbol::Kind,
            Symbol::Token(Terminal::Close),
            Symbol::Token(Terminal::Dot),
            Symbol::Part(Rule::Term),
            Symbol::Act(Action::TypeLambda),
        ]),
        Terminal::Letrec => Some(&[
            Symbol::Token(Terminal::Letrec),
            Symbol::Token(Terminal::OpenBrace),
            Symbol::Act(Action::NoBindings),
            Symbol::Part(Rule::Bindings),
            Symbol::Token(Terminal::CloseBrace),
            Symbol::Token(Terminal::In),
            Symbol::Part(Rule::Term),
            Symbol::Act(Action::LetRec),
        ]),
        Terminal::Case => Some(&[
            Symbol::Token(Terminal::Case),
            Symbol::Part(Rule::Term),
            Symbol::Token(Terminal::Of),
            Symbol::Token(Terminal::OpenBrace),
            Symbol::Act(Action::NoAlternatives),
            Symbol::Part(Rule::Alternatives),
            Symbol::Token(Terminal::CloseBrace),
            Symbol::Act(Action::Case),
        ]),
        _ => Some(&[Symbol::Part(Rule::Simple), Symbol::Part(Rule::ApplyTail)]),
    }
}

pub fn of_bindings(next: Terminal) -> Option<&'static [Symbol]>
    ensures { MatchOption result (production Rule.Bindings next ≡ None) (λ symbols. production Rule.Bindings next ≡ Some symbols.now) }
{
    match next {
        Terminal::Lower => Some(&[
            Symbol::Word(WordSort::Lower),
            Symbol::Token(Terminal::Colon),
            Symbol::Part(Rule::Type),
            Symbol::Token(Terminal::Equals),
            Symbol::Part(Rule::Term),
            Symbol::Token(Terminal::Semicolon),
            Symbol::Act(Action::Binding),
            Symbol::Part(Rule::Bindings),
        ]),
        _ => Some(&[]),
    }
}

pub fn of_alternatives(next: Terminal) -> Option<&'static [Symbol]>
    ensures { MatchOption result (production Rule.Alternatives next ≡ None) (λ symbols. production Rule.Alternatives next ≡ Some symbols.now) }
{
    match next {
        Terminal::Upper | Terminal::Nat | Terminal::Dom | Terminal::Val | Terminal::Cir => Some(&[
            Symbol::Word(WordSort::Upper),
            Symbol::Act(Action::NoWords),
            Symbol::Part(Rule::Fields),
            Symbol::Act(Action::ConstructorPattern),
            Symbol::Token(Terminal::Arrow),
            Symbol::Part(Rule::Term),
            Symbol::Token(Terminal::Semicolon),
            Symbol::Act(Action::Alternative),
            Symbol::Part(Rule::Alternatives),
        ]),
        Terminal::Literal => Some(&[
            Symbol::Word(WordSort::Literal),
            Symbol::Act(Action::LiteralPattern),
            Symbol::Token(Terminal::Arrow),
            Symbol::Part(Rule::Term),
            Symbol::Token(Terminal::Semicolon),
            Symbol::Act(Action::Alternative),
            Symbol::Part(Rule::Alternatives),
        ]),
        Terminal::Underscore => Some(&[
            Symbol::Token(Terminal::Underscore),
            Symbol::Act(Action::DefaultPattern),
            Symbol::Token(Terminal::Arrow),
            Symbol::Part(Rule::Term),
            Symbol::Token(Terminal::Semicolon),
            Symbol::Act(Action::Alternative),
        ]),
        _ => Some(&[]),
    }
}

pub fn of_apply_tail(next: Terminal) -> Option<&'static [Symbol]>
    ensures { MatchOption result (production Rule.ApplyTail next ≡ None) (λ symbols. production Rule.ApplyTail next ≡ Some symbols.now) }
{
    match next {
        Terminal::Lower
        | Terminal::Upper
        | Terminal::Nat
        | Terminal::Dom
        | Terminal::Val
        | Terminal::Cir
        | Terminal::Literal
        | Terminal::Vec
        | Terminal::Open
        | Terminal::At => Some(&[
            Symbol::Act(Action::NoArguments),
            Symbol::Part(Rule::Argument),
            Symbol::Part(Rule::Arguments),
        ]),
        _ => Some(&[]),
    }
}

pub fn of_arguments(next: Terminal) -> Option<&'static [Symbol]>
    ensures { MatchOption result (production Rule.Arguments next ≡ None) (λ symbols. production Rule.Arguments next ≡ Some symbols.now) }
{
    match next {
        Terminal::Lower
        | Terminal::Upper
        | Terminal::Nat
        | Terminal::Dom
        | Terminal::Val
        | Terminal::Cir
        | Terminal::Literal
        | Terminal::Vec
        | Terminal::Open
        | Terminal::At => Some(&[Symbol::Part(Rule::Argument), Symbol::Part(Rule::Arguments)]),
        _ => Some(&[Symbol::Act(Action::Apply)]),
    }
}

pub fn of_argument(next: Terminal) -> Option<&'static [Symbol]>
    ensures { MatchOption result (production Rule.Argument next ≡ None) (λ symbols. production Rule.Argument next ≡ Some symbols.now) }
{
    match next {
        Terminal::At => Some(&[
            Symbol::Token(Terminal::At),
            Symbol::Part(Rule::Atom),
            Symbol::Act(Action::TypeArgument),
        ]),
        _ => Some(&[
            Symbol::Part(Rule::Simple),
            Symbol::Act(Action::TermArgument),
        ]),
    }
}

pub fn of_simple(next: Terminal) -> Option<&'static [Symbol]>
    ensures { MatchOption result (production Rule.Simple next ≡ None) (λ symbols. production Rule.Simple next ≡ Some symbols.now) }
{
    match next {
        Terminal::Lower => Some(&[Symbol::Word(WordSort::Lower), Symbol::Act(Action::NameTerm)]),
        Terminal::Upper | Terminal::Nat | Terminal::Dom | Terminal::Val | Terminal::Cir => Some(&[
            Symbol::Word(WordSort::Upper),
            Symbol::Act(Action::ConstructorTerm),
        ]),
        Terminal::Literal => Some(&[
            Symbol::Word(WordSort::Literal),
            Symbol::Act(Action::LiteralTerm),
        ]),
        Terminal::Vec => Some(&[
            Symbol::Token(Terminal::Vec),
            Symbol::Token(Terminal::At),
            Symbol::Part(Rule::Atom),
            Symbol::Token(Terminal::OpenBracket),
            Symbol::Act(Action::NoTerms),
            Symbol::Part(Rule::Elements),
            Symbol::Token(Terminal::CloseBracket),
            Symbol::Act(Action::VecLit),
        ]),
        Terminal::Open => Some(&[
            Symbol::Token(Terminal::Open),
            Symbol::Part(Rule::Term),
            Symbol::Token(Terminal::Close),
        ]),
        _ => None,
    }
}

pub fn of_elements(next: Terminal) -> Option<&'static [Symbol]>
    ensures { MatchOption result (production Rule.Elements next ≡ None) (λ symbols. production Rule.Elements next ≡ Some symbols.now) }
{
    match next {
        Terminal::CloseBracket => Some(&[]),
        _ => Some(&[
            Symbol::Part(Rule::Term),
            Symbol::Act(Action::MoreTerm),
            Symbol::Part(Rule::MoreElements),
        ]),
    }
}

pub fn of_more_elements(next: Terminal) -> Option<&'static [Symbol]>
    ensures { MatchOption result (production Rule.MoreElements next ≡ None) (λ symbols. production Rule.MoreElements next ≡ Some symbols.now) }
{
    match next {
        Terminal::Comma => Some(&[
            Symbol::Token(Terminal::Comma),
            Symbol::Part(Rule::Term),
            Symbol::Act(Action::MoreTerm),
            Symbol::Part(Rule::MoreElements),
        ]),
        _ => Some(&[]),
    }
}
