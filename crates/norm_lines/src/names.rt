//! The words for rules and for sorts.
ghost use Rattle.std.specs.Prelude.{◌≡◌};
ghost use Rattle.norm_lines.specs.Lines.{rule_name, sort_name};

use chw_terms::{Rule, Sort};

// The name of a rule, in capitals.
pub(crate) fn rule_name(rule: Rule) -> &'static str
    ensures { result.now ≡ rule_name rule }
{
    match rule {
        Rule::TyBeta => "TYBETA",
        Rule::Beta => "BETA",
        Rule::AppLet => "APPLET",
        Rule::AppCase => "APPCASE",
        Rule::CaseCon => "CASECON",
        Rule::CaseLet => "CASELET",
        Rule::CaseCase => "CASECASE",
        Rule::Proj => "PROJ",
        Rule::PrimLet => "PRIMLET",
        Rule::PrimCase => "PRIMCASE",
        Rule::Flat => "FLAT",
        Rule::Dead => "DEAD",
        Rule::Inline => "INLINE",
        Rule::Unfold => "UNFOLD",
        Rule::Unroll => "UNROLL",
        Rule::Elem => "ELEM",
        Rule::Delta => "DELTA",
        Rule::ApPure => "APPURE",
        Rule::Eta => "ETA",
        Rule::Spec => "SPEC",
        Rule::Anf => "ANF",
    }
}

// The word for a sort.
pub(crate) fn sort_name(sort: Sort) -> &'static str
    ensures { result.now ≡ sort_name sort }
{
    match sort {
        Sort::Value => "value",
        Sort::Circuit => "circuit",
    }
}
