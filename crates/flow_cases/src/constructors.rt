//! What the rule makes of a case on a constructor or on a literal.
ghost use Rattle.std.specs.Prelude.{◌≡◌, length, map, IfOk};
ghost use Rattle.chw_terms.specs.declared.rule.Rule.TheVariants.{CaseCon};
ghost use Rattle.chw_terms.specs.TermMoves.{shift};
ghost use Rattle.chw_terms.specs.TermTree.{con, lit};
ghost use Rattle.chw_terms.specs.TermView.{applied, group_of};
ghost use Rattle.chw_terms.specs.Unrolled.{named};
ghost use Rattle.rewriting.specs.Shapes.{with_fields};
ghost use Rattle.flow_cases.specs.Answered.{AnswersAnywhere, AnswersOver};
ghost use Rattle.flow_cases.specs.Given.{terms_in, types_in};
ghost use Rattle.flow_cases.specs.Moves.{fields_put};
ghost use Rattle.flow_cases.specs.Taken.{IsLoneDefault};

use crate::alternatives::{Known, first_taking, lone_default};
use crate::given::{are_just, terms_under, types_in};
use crate::parts::{fields_at, named, or_body};
use chw_base::{ConId, NoMemory, narrow};
use chw_bits::Bits;
use chw_terms::{Alt, Arg, Binding, Head, Pattern, Scalar, Term};
use chw_types::Ty;
use con_places::Constructors;
use std::alloc::Global;

// The types of fields at the types among these arguments.
fn types_at(alloc: Global, fields: &[Ty], args: &[Arg]) -> Result<Vec<Ty>, NoMemory>
    ensures { IfOk result (λ ts. ts.items ≡ fields_put fields.now (types_in args.now)) }
{
    let types = types_in(alloc, args)?;
    let outcome = fields_at(alloc, fields, types.as_slice());
    drop(types);
    outcome
}

// The terms among these arguments under so many more binders.
fn terms_below(alloc: Global, count: usize, args: &[Arg]) -> Result<Vec<Term>, NoMemory>
    ensures { IfOk result (λ es. es.items ≡ map (λ e. shift e 0 count) (terms_in args.now)) }
{
    let by = narrow(count)?;
    terms_under(alloc, args, by)
}

// The fields of a constructor as names for the terms among these arguments.
fn fields_named(alloc: Global, fields: &[Ty], args: &[Arg]) -> Result<Vec<Binding>, NoMemory>
    ensures { IfOk result (λ group. group_of group.items
        ≡ named (fields_put fields.now (types_in args.now)) (map (λ e. shift e 0 (length fields.now)) (terms_in args.now))) }
{
    let types = types_at(alloc, fields, args)?;
    let sides = terms_below(alloc, fields.len(), args)?;
    named(alloc, types, sides)
}

// An alternative's body, where the names of its pattern stand for the terms among these arguments.
fn with_fields(alloc: Global, alt: &Alt, fields: &[Ty], args: &[Arg]) -> Result<Term, NoMemory>
    ensures { length (terms_in args.now) ≡ length fields.now
        → IfOk result (λ e. e ≡ with_fields alt.now.pattern (fields_put fields.now (types_in args.now)) (terms_in args.now) alt.now.body) }
{
    if let Pattern::OfCon(_, _) = alt.pattern {
        let group = fields_named(alloc, fields, args)?;
        let body = alt.body.copy(alloc)?;
        return or_body(alloc, group, body);
    }
    alt.body.copy(alloc)
}

// case C @types es of { ..; C xs -> e; .. }  ==>  letrec { xs = es } in e
fn on_constructor(
    alloc: Global,
    constructors: &Constructors<'_>,
    at: ConId,
    args: &[Arg],
    alts: &[Alt],
) -> Result<Option<Term>, NoMemory>
    requires { (f : _) → IsLoneDefault alts.now f → ⊥ }
    ensures { IfOk result (AnswersOver constructors.now CaseCon (applied (con at.number) args.now) alts.now) }
{
    let Some(it) = constructors.at(at) else {
        return Ok(None);
    };
    let fields = it.decl.fields.as_slice();
    if !are_just(args, it.it.params.len(), fields.len()) {
        return Ok(None);
    }
    let Some(alt) = first_taking(alts, Known::Constructor(at, fields.len())) else {
        return Ok(None);
    };
    Ok(Some(with_fields(alloc, alt, fields, args)?))
}

// case 5u8 of { ..; 5u8 -> e; .. }  ==>  e
fn on_literal(
    alloc: Global,
    sort: Scalar,
    bits: &Bits,
    args: &[Arg],
    alts: &[Alt],
) -> Result<Option<Term>, NoMemory>
    requires { (f : _) → IsLoneDefault alts.now f → ⊥ }
    ensures { IfOk result (AnswersAnywhere CaseCon (applied (lit sort bits.now) args.now) alts.now) }
{
    if !args.is_empty() {
        return Ok(None);
    }
    match first_taking(alts, Known::Literal(sort, bits)) {
        Some(alt) => Ok(Some(alt.body.copy(alloc)?)),
        None => Ok(None),
    }
}

/// The first alternative that takes a constructor or a literal, where the names of its pattern stand for the constructor's arguments.
/// A default alone takes whatever there is.
pub(crate) fn case_con(
    alloc: Global,
    constructors: &Constructors<'_>,
    on: &Term,
    alts: &[Alt],
) -> Result<Option<Term>, NoMemory>
    ensures { IfOk result (AnswersOver constructors.now CaseCon on.now alts.now) }
{
    // case s of { _ -> e }  ==>  e
    if let Some(body) = lone_default(alts) {
        return Ok(Some(body.copy(alloc)?));
    }
    match &on.head {
        Head::Con(at) => on_constructor(alloc, constructors, *at, on.args.as_slice(), alts),
        Head::Lit(sort, bits) => on_literal(alloc, *sort, bits, on.args.as_slice(), alts),
        _ => Ok(None),
    }
}
