//! The names of rules and of modes in rows.
ghost use Rattle.std.specs.Prelude.{◌≡◌, IfOk};
ghost use Rattle.chw_terms.specs.declared.rule.Rule.TheVariants.{Spec};

use chw_base::Or;
use chw_terms::{Mode, Rule};
use row_tables::Unread;

/// The rule of this name, which is none that makes definitions.
pub(crate) fn rule_named(name: &str) -> Result<Rule, Or<Unread>>
    ensures { IfOk result (λ rule. rule ≡ Spec → ⊥) }
{
    match name {
        "TYBETA" => Ok(Rule::TyBeta),
        "BETA" => Ok(Rule::Beta),
        "APPLET" => Ok(Rule::AppLet),
        "APPCASE" => Ok(Rule::AppCase),
        "CASECON" => Ok(Rule::CaseCon),
        "CASELET" => Ok(Rule::CaseLet),
        "CASECASE" => Ok(Rule::CaseCase),
        "PROJ" => Ok(Rule::Proj),
        "PRIMLET" => Ok(Rule::PrimLet),
        "PRIMCASE" => Ok(Rule::PrimCase),
        "FLAT" => Ok(Rule::Flat),
        "DEAD" => Ok(Rule::Dead),
        "INLINE" => Ok(Rule::Inline),
        "UNFOLD" => Ok(Rule::Unfold),
        "UNROLL" => Ok(Rule::Unroll),
        "ELEM" => Ok(Rule::Elem),
        "DELTA" => Ok(Rule::Delta),
        "APPURE" => Ok(Rule::ApPure),
        "ETA" => Ok(Rule::Eta),
        "ANF" => Ok(Rule::Anf),
        _ => Err(Or::Fault(Unread)),
    }
}

/// The mode of this name.
pub(crate) fn mode_named(name: &str) -> Result<Mode, Or<Unread>> {
    match name {
        "V" => Ok(Mode::V),
        "C" => Ok(Mode::C),
        "HV" => Ok(Mode::HV),
        "HC" => Ok(Mode::HC),
        "K" => Ok(Mode::K),
        _ => Err(Or::Fault(Unread)),
    }
}
