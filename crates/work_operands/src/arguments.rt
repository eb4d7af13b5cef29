//! Names for arguments.
ghost use Rattle.std.specs.Prelude.{◌≡◌, ◌<◌, ◌≤◌, [], reverse, length, take, drop, set, Some, IfOk, MatchOption};
ghost use Rattle.chw_types.specs.References.{HasNoCycle};
ghost use Rattle.chw_terms.specs.declared.term.Arg.TheVariants.{OfTerm};
ghost use Rattle.chw_terms.specs.TermTree.{var};
ghost use Rattle.chw_terms.specs.TermView.{applied};
ghost use Rattle.chw_typing.specs.Scopes.{setting_in};
ghost use Rattle.rewriting.specs.Origins.{origins_of};
ghost use Rattle.rewriting.specs.Spots.{spot_of};
ghost use Rattle.rewriting.specs.Shapes.{shift_args};
ghost use Rattle.term_types.specs.Answers.{IsReady};
ghost use Rattle.term_frames.specs.Signatures.{IsSignature};
ghost use Rattle.call_types.specs.Arguments.{AllTyped};
ghost use Rattle.work_operands.specs.Firsts.{AnswersArguments, IsFirstArg, NoneNamed};
ghost use Rattle.work_operands.specs.Named.{with_arg_named};

use crate::finding::{Named, first_argument};
use crate::operands::Operands;
use chw_base::{NoMemory, VarIx};
use chw_terms::{Arg, Place, Scene, Term};
use rule_parts::copies::{arg_under, let_one, with_rest};
use std::alloc::Global;
use term_types::Signature;

/// The variable that a new let binds.
pub(crate) fn new_name(alloc: Global) -> Term
    ensures { result ≡ var 0 }
{
    Term::var(alloc, VarIx { number: 0 })
}

// The arguments under one more binder.
fn args_under(alloc: Global, args: &[Arg]) -> Result<Vec<Arg>, NoMemory>
    ensures { IfOk result (λ made. made.items ≡ shift_args args.now 0 1) }
{
    let mut made = Vec::new(alloc);
    for arg in args {
        made.push(arg_under(alloc, arg, 1)?)?;
    }
    Ok(made)
}

// The arguments under one more binder, with its variable for one of them.
fn args_with_name(alloc: Global, args: &[Arg], number: usize) -> Result<Vec<Arg>, NoMemory>
    requires { number < length args.now }
    ensures { IfOk result (λ made. made.items ≡ set (shift_args args.now 0 1) number (OfTerm (var 0))) }
{
    let (before, from) = args.split_at(number);
    let (_, behind) = from.split_at(1);
    let mut under = args_under(alloc, before)?;
    under.push(Arg::OfTerm(new_name(alloc)))?;
    let mut others = args_under(alloc, behind)?;
    under.append(&mut others)?;
    Ok(under)
}

// A head, which has no variables, on these arguments under the let.
fn under_let(alloc: Global, of: Term, args: &[Arg], number: usize) -> Result<Term, NoMemory>
    requires { number < length args.now }
    ensures { IfOk result (λ e. e ≡ applied of (set (shift_args args.now 0 1) number (OfTerm (var 0)))) }
{
    let under = args_with_name(alloc, args, number)?;
    of.applied(under)
}

// A head, which has no variables, on arguments of which one has got its name.
fn with_named(alloc: Global, of: Term, args: &[Arg], named: Named<'_>) -> Result<Term, NoMemory>
    requires { named.number < length args.now }
    ensures { IfOk result (λ e. e ≡ with_arg_named of args.now named.entry.number named.entry.ty named.entry.part.now) }
{
    let Named { number, ty, part } = named;
    let body = under_let(alloc, of, args, number)?;
    let_one(alloc, ty, part, body)
}

// The same where these are the first so many arguments, and the others stay behind.
fn with_named_among(
    alloc: Global,
    of: Term,
    args: &[Arg],
    count: usize,
    named: Named<'_>,
) -> Result<Option<Term>, NoMemory>
    requires fits { count ≤ length args.now }
    requires within { named.number < count }
    ensures { IfOk result (λ r. r ≡ Some (applied (with_arg_named of (take count args.now) named.entry.number named.entry.ty named.entry.part.now) (drop count args.now))) }
{
    let (given, rest) = args.split_at(count);
    let made = with_named(alloc, of, given, named)?;
    with_rest(alloc, Some(made), rest)
}

// The first operand among the first so many arguments that needs a name.
fn first_among<'t>(
    alloc: Global,
    scene: &Scene,
    signature: &Signature,
    place: &Place,
    among: Operands,
    args: &'t [Arg],
    count: usize,
) -> Result<Option<Named<'t>>, NoMemory>
    requires order { HasNoCycle scene.now.program.now.datas }
    requires ready { IsReady (setting_in scene.now) [] (reverse place.now.vars) }
    requires table { IsSignature scene.now.program.now signature.now }
    requires typed { AllTyped (origins_of scene.now) (spot_of place.now) args.now }
    ensures { IfOk result (λ r. MatchOption r
        (NoneNamed (origins_of scene.now) (spot_of place.now) among args.now count)
        (λ it. (count ≤ length args.now) × IsFirstArg (origins_of scene.now) (spot_of place.now) among (take count args.now) it.number it.ty it.part.now)) }
{
    if args.len() < count {
        return Ok(None);
    }
    let (given, _) = args.split_at(count);
    first_argument(alloc, scene, signature, place, among, given)
}

/// What a head, which has no variables, becomes on arguments: the first operand among the first so many of them that needs a name gets
/// it, and the others stay behind.
pub(crate) fn name_argument(
    alloc: Global,
    scene: &Scene,
    signature: &Signature,
    place: &Place,
    among: Operands,
    of: Term,
    args: &[Arg],
    count: usize,
) -> Result<Option<Term>, NoMemory>
    requires order { HasNoCycle scene.now.program.now.datas }
    requires ready { IsReady (setting_in scene.now) [] (reverse place.now.vars) }
    requires table { IsSignature scene.now.program.now signature.now }
    requires typed { AllTyped (origins_of scene.now) (spot_of place.now) args.now }
    ensures { IfOk result (AnswersArguments (origins_of scene.now) (spot_of place.now) among of args.now count) }
{
    match first_among(alloc, scene, signature, place, among, args, count)? {
        Some(named) => with_named_among(alloc, of, args, count, named),
        None => Ok(None),
    }
}
