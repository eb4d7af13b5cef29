//! How the rules of types go on, by the next terminal.
ghost use Rattle.std.specs.Prelude.{◌≡◌, MatchOption, Some, None};
ghost use Rattle.chw_parser.specs.Productions.{production};

use crate::symbol::{Rule, Symbol, WordSort};
use chw_grammar::Terminal;
use parser_parts::Action;

pub fn of_atoms(next: Terminal) -> Option<&'static [Symbol]>
    ensures { MatchOption result (production Rule.Atoms next ≡ None) (λ symbols. production Rule.Atoms next ≡ Some symbols.now) }
{
    match next {
        Terminal::Lower
        | Terminal::Upper
        | Terminal::Nat
        | Terminal::Dom
        | Terminal::Val
        | Terminal::Cir
        | Terminal::Numeral
        | Terminal::Open => Some(&[
            Symbol::Part(Rule::Atom),
            Symbol::Act(Action::MoreType),
            Symbol::Part(Rule::Atoms),
        ]),
        _ => Some(&[]),
    }
}

pub fn of_type(next: Terminal) -> Option<&'static [Symbol]>
    ensures { MatchOption result (production Rule.Type next ≡ None) (λ symbols. production Rule.Type next ≡ Some symbols.now) }
{
    match next {
        Terminal::Forall => Some(&[
            Symbol::Token(Terminal::Forall),
            Symbol::Token(Terminal::Open),
            Symbol::Word(WordSort::Lower),
            Symbol::Token(Terminal::Colon),
            Symbol::Kind,
            Symbol::Token(Terminal::Close),
            Symbol::Token(Terminal::Dot),
            Symbol::Part(Rule::Type),
            Symbol::Act(Action::Forall),
        ]),
        _ => Some(&[
            Symbol::Part(Rule::Product),
            Symbol::Part(Rule::SumTail),
            Symbol::Part(Rule::ArrowTail),
        ]),
    }
}

pub fn of_arrow_tail(next: Terminal) -> Option<&'static [Symbol]>
    ensures { MatchOption result (production Rule.ArrowTail next ≡ None) (λ symbols. production Rule.ArrowTail next ≡ Some symbols.now) }
{
    match next {
        Terminal::Arrow => Some(&[
            Symbol::Token(Terminal::Arrow),
            Symbol::Part(Rule::Type),
            Symbol::Act(Action::Arrow),
        ]),
        _ => Some(&[]),
    }
}

pub fn of_sum_tail(next: Terminal) -> Option<&'static [Symbol]>
    ensures { MatchOption result (production Rule.SumTail next ≡ None) (λ symbols. production Rule.SumTail next ≡ Some symbols.now) }
{
    match next {
        Terminal::Plus => Some(&[
            Symbol::Act(Action::FirstType),
            Symbol::Token(Terminal::Plus),
            Symbol::Part(Rule::Product),
            Symbol::Act(Action::MoreType),
            Symbol::Part(Rule::SumMore),
        ]),
        _ => Some(&[]),
    }
}

pub fn of_sum_more(next: Terminal) -> Option<&'static [Symbol]>
    ensures { MatchOption result (production Rule.SumMore next ≡ None) (λ symbols. production Rule.SumMore next ≡ Some symbols.now) }
{
    match next {
        Terminal::Plus => Some(&[
            Symbol::Token(Terminal::Plus),
            Symbol::Part(Rule::Product),
            Symbol::Act(Action::MoreType),
            Symbol::Part(Rule::SumMore),
        ]),
        _ => Some(&[Symbol::Act(Action::Sum)]),
    }
}

pub fn of_product_tail(next: Terminal) -> Option<&'static [Symbol]>
    ensures { MatchOption result (production Rule.ProductTail next ≡ None) (λ symbols. production Rule.ProductTail next ≡ Some symbols.now) }
{
    match next {
        Terminal::Star => Some(&[
            Symbol::Act(Action::FirstType),
            Symbol::Token(Terminal::Star),
            Symbol::Part(Rule::Applied),
            Symbol::Act(Action::MoreType),
            Symbol::Part(Rule::ProductMore),
        ]),
        _ => Some(&[]),
    }
}

pub fn of_product_more(next: Terminal) -> Option<&'static [Symbol]>
    ensures { MatchOption result (production Rule.ProductMore next ≡ None) (λ symbols. production Rule.ProductMore next ≡ Some symbols.now) }
{
    match next {
        Terminal::Star => Some(&[
            Symbol::Token(Terminal::Star),
            Symbol::Part(Rule::Applied),
            Symbol::Act(Action::MoreType),
            Symbol::Part(Rule::ProductMore),
        ]),
        _ => Some(&[Symbol::Act(Action::Product)]),
    }
}

pub fn of_applied(next: Terminal) -> Option<&'static [Symbol]>
    ensures { MatchOption result (production Rule.Applied next ≡ None) (λ symbols. production Rule.Applied next ≡ Some symbols.now) }
{
    match next {
        Terminal::Upper | Terminal::Nat | Terminal::Dom | Terminal::Val | Terminal::Cir => Some(&[
            Symbol::Word(WordSort::Upper),
            Symbol::Act(Action::NoTypes),
            Symbol::Part(Rule::Atoms),
            Symbol::Act(Action::Named),
        ]),
        _ => Some(&[Symbol::Part(Rule::Atom)]),
    }
}

pub fn of_atom(next: Terminal) -> Option<&'static [Symbol]>
    ensures { MatchOption result (production Rule.Atom next ≡ None) (λ symbols. production Rule.Atom next ≡ Some symbols.now) }
{
    match next {
        Terminal::Lower => Some(&[Symbol::Word(WordSort::Lower), Symbol::Act(Action::Variable)]),
        Terminal::Upper | Terminal::Nat | Terminal::Dom | Terminal::Val | Terminal::Cir => Some(&[
            Symbol::Word(WordSort::Upper),
            Symbol::Act(Action::NoTypes),
            Symbol::Act(Action::Named),
        ]),
        Terminal::Numeral => Some(&[
            Symbol::Word(WordSort::Numeral),
            Symbol::Act(Action::Numeral),
        ]),
        Terminal::Open => Some(&[
            Symbol::Token(Terminal::Open),
            Symbol::Part(Rule::Type),
            Symbol::Token(Terminal::Close),
        ]),
        _ => None,
    }
}
