//! How the rules of declarations go on, by the next terminal.
ghost use Rattle.std.specs.Prelude.{◌≡◌, MatchOption, Some, None};
ghost use Rattle.chw_parser.specs.Productions.{production};

use crate::symbol::{Rule, Symbol, WordSort};
use chw_grammar::Terminal;
use parser_parts::Action;

pub fn of_declarations(next: Terminal) -> Option<&'static [Symbol]>
    ensures { MatchOption result (production Rule.Declarations next ≡ None) (λ symbols. production Rule.Declarations next ≡ Some symbols.now) }
{
    match next {
        Terminal::Domain => Some(&[
            Symbol::Token(Terminal::Domain),
            Symbol::Word(WordSort::Upper),
            Symbol::Part(Rule::DomainEnd),
            Symbol::Part(Rule::Declarations),
        ]),
        Terminal::Def => Some(&[
            Symbol::Token(Terminal::Def),
            Symbol::Word(WordSort::Lower),
            Symbol::Token(Terminal::Colon),
            Symbol::Part(Rule::Type),
            Symbol::Token(Terminal::Equals),
            Symbol::Part(Rule::Term),
            Symbol::Token(Terminal::Semicolon),
            Symbol::Act(Action::Definition),
            Symbol::Part(Rule::Declarations),
        ]),
        Terminal::Data => Some(&[
            Symbol::Token(Terminal::Data),
            Symbol::Word(WordSort::Upper),
            Symbol::Act(Action::NoParameters),
            Symbol::Part(Rule::Parameters),
            Symbol::Token(Terminal::Equals),
            Symbol::Act(Action::NoConstructors),
            Symbol::Part(Rule::Constructor),
            Symbol::Part(Rule::Constructors),
            Symbol::Token(Terminal::Semicolon),
            Symbol::Act(Action::DataType),
            Symbol::Part(Rule::Declarations),
        ]),
        Terminal::Top => Some(&[
            Symbol::Token(Terminal::Top),
            Symbol::Word(WordSort::Lower),
            Symbol::Token(Terminal::Open),
            Symbol::Act(Action::NoWords),
            Symbol::Part(Rule::Inputs),
            Symbol::Token(Terminal::Close),
            Symbol::Token(Terminal::Open),
            Symbol::Act(Action::NoWords),
            Symbol::Word(WordSort::Lower),
            Symbol::Act(Action::Word),
            Symbol::Part(Rule::Ports),
            Symbol::Token(Terminal::Close),
            Symbol::Token(Terminal::Semicolon),
            Symbol::Act(Action::Tree),
        ]),
        _ => None,
    }
}

pub fn of_domain_end(next: Terminal) -> Option<&'static [Symbol]>
    ensures { MatchOption result (production Rule.DomainEnd next ≡ None) (λ symbols. production Rule.DomainEnd next ≡ Some symbols.now) }
{
    match next {
        Terminal::Lower => Some(&[
            Symbol::Reset,
            Symbol::Token(Terminal::Semicolon),
            Symbol::Act(Action::Domain(true)),
        ]),
        _ => Some(&[
            Symbol::Token(Terminal::Semicolon),
            Symbol::Act(Action::Domain(false)),
        ]),
    }
}

pub fn of_parameters(next: Terminal) -> Option<&'static [Symbol]>
    ensures { MatchOption result (production Rule.Parameters next ≡ None) (λ symbols. production Rule.Parameters next ≡ Some symbols.now) }
{
    match next {
        Terminal::Open => Some(&[
            Symbol::Token(Terminal::Open),
            Symbol::Word(WordSort::Lower),
            Symbol::Token(Terminal::Colon),
            Symbol::Kind,
            Symbol::Token(Terminal::Close),
            Symbol::Act(Action::Parameter),
            Symbol::Part(Rule::Parameters),
        ]),
        _ => Some(&[]),
    }
}

pub fn of_constructors(next: Terminal) -> Option<&'static [Symbol]>
    ensures { MatchOption result (production Rule.Constructors next ≡ None) (λ symbols. production Rule.Constructors next ≡ Some symbols.now) }
{
    match next {
        Terminal::Bar => Some(&[
            Symbol::Token(Terminal::Bar),
            Symbol::Part(Rule::Constructor),
            Symbol::Part(Rule::Constructors),
        ]),
        _ => Some(&[]),
    }
}

pub fn of_inputs(next: Terminal) -> Option<&'static [Symbol]>
    ensures { MatchOption result (production Rule.Inputs next ≡ None) (λ symbols. production Rule.Inputs next ≡ Some symbols.now) }
{
    match next {
        Terminal::Close => Some(&[]),
        _ => Some(&[
            Symbol::Word(WordSort::Lower),
            Symbol::Act(Action::Word),
            Symbol::Part(Rule::Ports),
        ]),
    }
}

pub fn of_ports(next: Terminal) -> Option<&'static [Symbol]>
    ensures { MatchOption result (production Rule.Ports next ≡ None) (λ symbols. production Rule.Ports next ≡ Some symbols.now) }
{
    match next {
        Terminal::Comma => Some(&[
            Symbol::Token(Terminal::Comma),
            Symbol::Word(WordSort::Lower),
            Symbol::Act(Action::Word),
            Symbol::Part(Rule::Ports),
        ]),
        _ => Some(&[]),
    }
}
