//! How each rule goes on, by the next terminal.
ghost use Rattle.std.specs.Prelude.{◌≡◌, MatchOption, Some, None};
ghost use Rattle.chw_parser.specs.Productions.{production};

use crate::symbol::{Rule, Symbol, WordSort};
use crate::{declaration_rules, term_rules, type_rules};
use chw_grammar::Terminal;
use parser_parts::Action;

/// What the rule has in its place before this terminal, or `None` where none of its productions begins so.
pub fn production(rule: Rule, next: Terminal) -> Option<&'static [Symbol]>
    ensures { MatchOption result (production rule next ≡ None) (λ symbols. production rule next ≡ Some symbols.now) }
{
    match rule {
        Rule::Program => Some(&[
            Symbol::Act(Action::NoDeclarations),
            Symbol::Part(Rule::Declarations),
        ]),
        Rule::Declarations => declaration_rules::of_declarations(next),
        Rule::DomainEnd => declaration_rules::of_domain_end(next),
        Rule::Parameters => declaration_rules::of_parameters(next),
        Rule::Constructor => Some(&[
            Symbol::Word(WordSort::Upper),
            Symbol::Act(Action::NoTypes),
            Symbol::Part(Rule::Atoms),
            Symbol::Act(Action::Constructor),
        ]),
        Rule::Constructors => declaration_rules::of_constructors(next),
        Rule::Atoms => type_rules::of_atoms(next),
        Rule::Inputs => declaration_rules::of_inputs(next),
        Rule::Ports => declaration_rules::of_ports(next),
        Rule::Fields => term_rules::of_fields(next),
        Rule::Type => type_rules::of_type(next),
        Rule::ArrowTail => type_rules::of_arrow_tail(next),
        Rule::SumTail => type_rules::of_sum_tail(next),
        Rule::SumMore => type_rules::of_sum_more(next),
        Rule::Product => Some(&[Symbol::Part(Rule::Applied), Symbol::Part(Rule::ProductTail)]),
        Rule::ProductTail => type_rules::of_product_tail(next),
        Rule::ProductMore => type_rules::of_product_more(next),
        Rule::Applied => type_rules::of_applied(next),
        Rule::Atom => type_rules::of_atom(next),
        Rule::Term => term_rules::of_term(next),
        Rule::Bindings => term_rules::of_bindings(next),
        Rule::Alternatives => term_rules::of_alternatives(next),
        Rule::ApplyTail => term_rules::of_apply_tail(next),
        Rule::Arguments => term_rules::of_arguments(next),
        Rule::Argument => term_rules::of_argument(next),
        Rule::Simple => term_rules::of_simple(next),
        Rule::Elements => term_rules::of_elements(next),
        Rule::MoreElements => term_rules::of_more_elements(next),
    }
}
