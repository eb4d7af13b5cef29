//! Terms.
ghost use Rattle.std.specs.Prelude.{◌≡◌, ◌-◌, IfOk, OnOk};
ghost use Rattle.chw_grammar.specs.TermTree.{term_lambda, term_type_lambda, term_letrec, term_case, term_apply, term_vec};
ghost use Rattle.chw_grammar.specs.TermView.{terms_of, bindings_of, alternatives_of, arguments_of};
ghost use Rattle.chw_resolve.specs.Terms.{definition_at, named_term, primitives, pattern_in, term_in};
ghost use Rattle.chw_resolve.specs.Types.{place_in};
ghost use Rattle.chw_resolve.specs.Walks.{argument_in, binding_in, alternative_in, literal_in};

use crate::binders::{bind_group, bind_pattern};
use crate::literals::{bits_in, sort_of};
use crate::types::{kind_in, type_in};
use chw_base::{ConId, DefId, NoMemory, VarIx};
use chw_grammar::{
    Alternative, Argument, Binding as WrittenBinding, KindTree, Pattern as WrittenPattern,
    TermNode, TermTree, TypeTree, Word, read_literal,
};
use chw_names::Globals;
use chw_prims::ALL;
use chw_terms::{Alt, Arg, Binding, Pattern, Term};
use name_tables::Scope;
use std::alloc::Global;

/// The term of a tree, where these type variables and these variables are in scope.
///
/// A name that nothing declares stands for what has the number 0.
#[cycle(term_in)]
pub fn term_in<'t>(
    alloc: Global,
    globals: &Globals<'t>,
    types: &mut Scope<'t>,
    values: &mut Scope<'t>,
    tree: &'t TermTree,
) -> Result<Term, NoMemory>
    ensures made { IfOk result (λ e. e ≡ term_in globals.now types.old values.old tree.now) }
    ensures types { OnOk result (types.new ≡ types.old) }
    ensures values { OnOk result (values.new ≡ values.old) }
{
    match &tree.node {
        TermNode::Lambda(name, ty, body) => lambda_in(
            alloc, globals, types, values, name, ty, body,
        ),
        TermNode::TypeLambda(name, kind, body) => {
            type_lambda_in(alloc, globals, types, values, name, *kind, body)
        }
        TermNode::LetRec(bindings, body) => {
            letrec_in(alloc, globals, types, values, bindings.as_slice(), body)
        }
        TermNode::Case(on, alternatives) => {
            case_in(alloc, globals, types, values, on, alternatives.as_slice())
        }
        TermNode::Apply(head, arguments) => {
            apply_in(alloc, globals, types, values, head, arguments.as_slice())
        }
        TermNode::Name(word) => Ok(named_term(alloc, globals, values, word.bytes.as_slice())),
        TermNode::Constructor(word) => {
            let at = constructor_in(globals, word.bytes.as_slice());
            Ok(Term::con(alloc, at))
        }
        TermNode::Literal(word) => literal_in(alloc, word),
        TermNode::VecLit(ty, elements) => {
            vec_in(alloc, globals, types, values, ty, elements.as_slice())
        }
    }
}

/// A function of a variable of this name and type.
#[cycle(term_in)]
fn lambda_in<'t>(
    alloc: Global,
    globals: &Globals<'t>,
    types: &mut Scope<'t>,
    values: &mut Scope<'t>,
    name: &'t Word,
    ty: &'t TypeTree,
    body: &'t TermTree,
) -> Result<Term, NoMemory>
    ensures made { IfOk result (λ e. e ≡ term_in globals.now types.old values.old (term_lambda name.now ty.now body.now)) }
    ensures types { OnOk result (types.new ≡ types.old) }
    ensures values { OnOk result (values.new ≡ values.old) }
{
    let ty = type_in(alloc, globals, types, ty)?;
    values.bind(name.bytes.as_slice())?;
    let body = term_in(alloc, globals, types, values, body)?;
    values.unbind();
    Ok(Term::lam(alloc, ty, body)?)
}

/// A function of a type variable of this name and kind.
#[cycle(term_in)]
fn type_lambda_in<'t>(
    alloc: Global,
    globals: &Globals<'t>,
    types: &mut Scope<'t>,
    values: &mut Scope<'t>,
    name: &'t Word,
    kind: KindTree,
    body: &'t TermTree,
) -> Result<Term, NoMemory>
    ensures made { IfOk result (λ e. e ≡ term_in globals.now types.old values.old (term_type_lambda name.now kind body.now)) }
    ensures types { OnOk result (types.new ≡ types.old) }
    ensures values { OnOk result (values.new ≡ values.old) }
{
    types.bind(name.bytes.as_slice())?;
    let body = term_in(alloc, globals, types, values, body)?;
    types.unbind();
    Ok(Term::ty_lam(alloc, kind_in(kind), body)?)
}

/// A letrec, whose bindings are in scope in one another and in the body.
#[cycle(term_in)]
fn letrec_in<'t>(
    alloc: Global,
    globals: &Globals<'t>,
    types: &mut Scope<'t>,
    values: &mut Scope<'t>,
    bindings: &'t [WrittenBinding],
    body: &'t TermTree,
) -> Result<Term, NoMemory>
    ensures made { IfOk result (λ e. e ≡ term_in globals.now types.old values.old (term_letrec (bindings_of bindings.now) body.now)) }
    ensures types { OnOk result (types.new ≡ types.old) }
    ensures values { OnOk result (values.new ≡ values.old) }
{
    bind_group(values, bindings)?;
    let mut group = Vec::new(alloc);
    for binding in bindings {
        group.push(binding_in(alloc, globals, types, values, binding)?)?;
    }
    let body = term_in(alloc, globals, types, values, body)?;
    values.unbind_all(bindings.len());
    Ok(Term::letrec(alloc, group, body)?)
}

/// A binding of a letrec, whose variables are in scope already.
#[cycle(term_in)]
fn binding_in<'t>(
    alloc: Global,
    globals: &Globals<'t>,
    types: &mut Scope<'t>,
    values: &mut Scope<'t>,
    binding: &'t WrittenBinding,
) -> Result<Binding, NoMemory>
    ensures made { IfOk result (λ e. e ≡ binding_in globals.now types.old values.old binding.now) }
    ensures types { OnOk result (types.new ≡ types.old) }
    ensures values { OnOk result (values.new ≡ values.old) }
{
    let ty = type_in(alloc, globals, types, &binding.ty)?;
    let body = term_in(alloc, globals, types, values, &binding.term)?;
    Ok(Binding { ty, body })
}

/// A case.
#[cycle(term_in)]
fn case_in<'t>(
    alloc: Global,
    globals: &Globals<'t>,
    types: &mut Scope<'t>,
    values: &mut Scope<'t>,
    on: &'t TermTree,
    alternatives: &'t [Alternative],
) -> Result<Term, NoMemory>
    ensures made { IfOk result (λ e. e ≡ term_in globals.now types.old values.old (term_case on.now (alternatives_of alternatives.now))) }
    ensures types { OnOk result (types.new ≡ types.old) }
    ensures values { OnOk result (values.new ≡ values.old) }
{
    let mut alts = Vec::new(alloc);
    for alternative in alternatives {
        alts.push(alternative_in(alloc, globals, types, values, alternative)?)?;
    }
    let on = term_in(alloc, globals, types, values, on)?;
    Ok(Term::case(alloc, on, alts)?)
}

/// An alternative, in which the variables of its pattern are in scope.
#[cycle(term_in)]
fn alternative_in<'t>(
    alloc: Global,
    globals: &Globals<'t>,
    types: &mut Scope<'t>,
    values: &mut Scope<'t>,
    alternative: &'t Alternative,
) -> Result<Alt, NoMemory>
    ensures made { IfOk result (λ e. e ≡ alternative_in globals.now types.old values.old alternative.now) }
    ensures types { OnOk result (types.new ≡ types.old) }
    ensures values { OnOk result (values.new ≡ values.old) }
{
    let pattern = pattern_in(alloc, globals, &alternative.pattern)?;
    bind_pattern(values, &alternative.pattern)?;
    let body = term_in(alloc, globals, types, values, &alternative.term)?;
    values.unbind_all(pattern.binders() as usize);
    Ok(Alt { pattern, body })
}

/// A head at arguments.
#[cycle(term_in)]
fn apply_in<'t>(
    alloc: Global,
    globals: &Globals<'t>,
    types: &mut Scope<'t>,
    values: &mut Scope<'t>,
    head: &'t TermTree,
    arguments: &'t [Argument],
) -> Result<Term, NoMemory>
    ensures made { IfOk result (λ e. e ≡ term_in globals.now types.old values.old (term_apply head.now (arguments_of arguments.now))) }
    ensures types { OnOk result (types.new ≡ types.old) }
    ensures values { OnOk result (values.new ≡ values.old) }
{
    let mut args = Vec::new(alloc);
    for argument in arguments {
        args.push(argument_in(alloc, globals, types, values, argument)?)?;
    }
    let head = term_in(alloc, globals, types, values, head)?;
    Ok(head.applied(args)?)
}

/// An argument.
#[cycle(term_in)]
fn argument_in<'t>(
    alloc: Global,
    globals: &Globals<'t>,
    types: &mut Scope<'t>,
    values: &mut Scope<'t>,
    argument: &'t Argument,
) -> Result<Arg, NoMemory>
    ensures made { IfOk result (λ e. e ≡ argument_in globals.now types.old values.old argument.now) }
    ensures types { OnOk result (types.new ≡ types.old) }
    ensures values { OnOk result (values.new ≡ values.old) }
{
    match argument {
        Argument::OfTerm(term) => {
            let term = term_in(alloc, globals, types, values, term)?;
            Ok(Arg::OfTerm(term))
        }
        Argument::OfType(ty) => {
            let ty = type_in(alloc, globals, types, ty)?;
            Ok(Arg::OfType(ty))
        }
    }
}

/// A written vector.
#[cycle(term_in)]
fn vec_in<'t>(
    alloc: Global,
    globals: &Globals<'t>,
    types: &mut Scope<'t>,
    values: &mut Scope<'t>,
    ty: &'t TypeTree,
    elements: &'t [TermTree],
) -> Result<Term, NoMemory>
    ensures made { IfOk result (λ e. e ≡ term_in globals.now types.old values.old (term_vec ty.now (terms_of elements.now))) }
    ensures types { OnOk result (types.new ≡ types.old) }
    ensures values { OnOk result (values.new ≡ values.old) }
{
    let mut done = Vec::new(alloc);
    for element in elements {
        done.push(term_in(alloc, globals, types, values, element)?)?;
    }
    let ty = type_in(alloc, globals, types, ty)?;
    Ok(Term::vec_lit(alloc, ty, done))
}

/// A literal.
fn literal_in(alloc: Global, word: &Word) -> Result<Term, NoMemory>
    ensures { IfOk result (λ e. e ≡ literal_in word.now.bytes) }
{
    let literal = read_literal(word.bytes.as_slice());
    let bits = bits_in(alloc, literal)?;
    Ok(Term::lit(alloc, sort_of(literal.letter), bits))
}

/// What an alternative is for.
fn pattern_in<'t>(
    alloc: Global,
    globals: &Globals<'t>,
    pattern: &WrittenPattern,
) -> Result<Pattern, NoMemory>
    ensures { IfOk result (λ q. q ≡ pattern_in globals.now pattern.now) }
{
    match pattern {
        WrittenPattern::Constructor(word, words) => {
            let at = constructor_in(globals, word.bytes.as_slice());
            let fields = u32::try_from(words.len()).map_err(|_| NoMemory)?;
            Ok(Pattern::OfCon(at, fields))
        }
        WrittenPattern::Literal(word) => {
            let literal = read_literal(word.bytes.as_slice());
            let bits = bits_in(alloc, literal)?;
            Ok(Pattern::OfLit(sort_of(literal.letter), bits))
        }
        WrittenPattern::Default => Ok(Pattern::Default),
    }
}

/// What a lower name stands for.
fn named_term<'t>(alloc: Global, globals: &Globals<'t>, values: &Scope<'t>, name: &[u8]) -> Term
    ensures { result ≡ named_term globals.now values.now name.now }
{
    match values.find(name) {
        Some(number) => Term::var(alloc, VarIx { number }),
        None => definition_at(alloc, globals.definitions.find(name).unwrap_or(0)),
    }
}

/// What stands at this place among the names of definitions: a primitive, or a definition behind all primitives.
#[tactic(auto, unfolding(crate::specs::Terms::definition_at, crate::specs::Terms::primitives))]
fn definition_at(alloc: Global, place: u32) -> Term
    ensures { result ≡ definition_at place }
{
    let all = ALL;
    match all.get(place as usize) {
        Some(primitive) => Term::prim_of(alloc, *primitive),
        None => Term::global(alloc, behind_primitives(place)),
    }
}

/// The definition whose name stands at this place among the names of definitions, where it is none of a primitive.
#[tactic(auto, unfolding(crate::specs::Terms::primitives))]
pub fn behind_primitives(place: u32) -> DefId
    ensures { result.number ≡ place - primitives }
{
    let all = ALL;
    DefId {
        number: place.saturating_sub(all.len() as u32),
    }
}

/// The constructor of a name.
fn constructor_in<'t>(globals: &Globals<'t>, name: &[u8]) -> ConId
    ensures { result.number ≡ place_in globals.now.constructors name.now }
{
    ConId {
        number: globals.constructors.find(name).unwrap_or(0),
    }
}
