//! What the rule makes of a case on a letrec.
ghost use Rattle.std.specs.Prelude.{IfOk};
ghost use Rattle.chw_terms.specs.declared.rule.Rule.TheVariants.{CaseLet};
ghost use Rattle.flow_cases.specs.Answered.{AnswersAnywhere};

use crate::alternatives::alts_under;
use crate::parts::bare_head;
use chw_base::{NoMemory, narrow};
use chw_terms::{Alt, Head, Term};
use rule_parts::copies::copy_group;
use std::alloc::Global;

/// A letrec moves out of a scrutinee.
pub(crate) fn case_let(alloc: Global, on: &Term, alts: &[Alt]) -> Result<Option<Term>, NoMemory>
    ensures { IfOk result (AnswersAnywhere CaseLet on.now alts.now) }
{
    // case (letrec g in e) of alts  ==>  letrec g in case e of alts
    let Some(head) = bare_head(on) else {
        return Ok(None);
    };
    let Head::LetRec(bindings, body) = head else {
        return Ok(None);
    };
    let inside = alts_under(alloc, alts, narrow(bindings.len())?)?;
    let inner = Term::case(alloc, body.copy(alloc)?, inside)?;
    let group = copy_group(alloc, bindings)?;
    Ok(Some(Term::letrec(alloc, group, inner)?))
}
