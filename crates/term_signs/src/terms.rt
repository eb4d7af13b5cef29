//! Terms as signs.
ghost use Rattle.std.specs.Prelude.{◌≡◌, ◌++◌, ◌∷◌, [], map, reverse, IfOk, OnOk};
ghost use Rattle.chw_terms.specs.Evaluated.{evaluated};
ghost use Rattle.chw_terms.specs.TermView.{tree_of, terms_of, group_of, alts_of};
ghost use Rattle.term_signs.specs.declared.alphabet.Form.TheVariants.{Primitive};
ghost use Rattle.term_signs.specs.declared.alphabet.Sign.TheVariants.{Of, OfPrim, OfSort};
ghost use Rattle.term_signs.specs.TypeSigns.{type_signs};
ghost use Rattle.term_signs.specs.TermSigns.{bit_signs, pattern_signs};
ghost use Rattle.term_signs.specs.Written.{written, written_all, written_group, written_alts, mark, in_arg, in_binding, in_alt, in_element};

use crate::alphabet::{Form, Sign};
use crate::types::{write_kind, write_number, write_sort, write_type};
use chw_base::NoMemory;
use chw_bits::Bits;
use chw_prims::Prim;
use chw_terms::{Alt, Arg, Binding, Head, Pattern, Scalar, Term, evaluate};
use chw_types::Ty;
use std::alloc::Global;

/// The signs of the term, closed naturals as numbers. This takes time linear in the term.
pub fn signs_of(alloc: Global, term: &Term) -> Result<Vec<Sign>, NoMemory>
    ensures { IfOk result (λ signs. signs.items ≡ written term.now) }
{
    let mut out = Vec::new(alloc);
    write(alloc, &mut out, term)?;
    Ok(out)
}

// The sign of an application to an argument.
fn mark(arg: &Arg) -> Sign
    ensures { result ≡ mark arg.now }
{
    match arg {
        Arg::OfTerm(_) => Sign::Of(Form::App),
        Arg::OfType(_) => Sign::Of(Form::TyApp),
    }
}

// Writes the applications to these arguments, that to the last one first.
fn write_marks(out: &mut Vec<Sign>, args: &[Arg]) -> Result<(), NoMemory>
    ensures { OnOk result (out.new.items ≡ out.old.items ++ map mark (reverse args.now)) }
{
    for arg in args.iter().rev() {
        out.push(mark(arg))?;
    }
    Ok(())
}

// Writes a type, closed naturals as numbers.
fn write_numbered(alloc: Global, out: &mut Vec<Sign>, ty: &Ty) -> Result<(), NoMemory>
    ensures { OnOk result (out.new.items ≡ out.old.items ++ type_signs (evaluated ty.now)) }
{
    let ty = evaluate(alloc, ty)?;
    write_type(out, &ty)
}

// Writes a form and a type.
fn write_typed(alloc: Global, out: &mut Vec<Sign>, form: Form, ty: &Ty) -> Result<(), NoMemory>
    ensures { OnOk result (out.new.items ≡ out.old.items ++ (Of form ∷ type_signs (evaluated ty.now))) }
{
    out.push(Sign::Of(form))?;
    write_numbered(alloc, out, ty)
}

fn write_prim(out: &mut Vec<Sign>, which: Prim) -> Result<(), NoMemory>
    ensures { OnOk result (out.new.items ≡ out.old.items ++ (Of Primitive ∷ OfPrim which ∷ [])) }
{
    out.push(Sign::Of(Form::Primitive))?;
    out.push(Sign::OfPrim(which))?;
    Ok(())
}

fn write_bits(out: &mut Vec<Sign>, bits: &Bits) -> Result<(), NoMemory>
    ensures { OnOk result (out.new.items ≡ out.old.items ++ bit_signs bits.now) }
{
    for bit in bits.as_slice() {
        out.push(Sign::Bit(*bit))?;
    }
    out.push(Sign::Of(Form::NoBits))?;
    Ok(())
}

fn write_literal(out: &mut Vec<Sign>, form: Form, sort: Scalar, bits: &Bits) -> Result<(), NoMemory>
    ensures { OnOk result (out.new.items ≡ out.old.items ++ (Of form ∷ OfSort sort ∷ bit_signs bits.now)) }
{
    write_sort(out, form, sort)?;
    write_bits(out, bits)
}

fn write_pattern(out: &mut Vec<Sign>, pattern: &Pattern) -> Result<(), NoMemory>
    ensures { OnOk result (out.new.items ≡ out.old.items ++ pattern_signs pattern.now) }
{
    match pattern {
        Pattern::OfCon(con, fields) => {
            write_number(out, Form::ConPattern, con.number)?;
            out.push(Sign::Number(*fields))?;
            Ok(())
        }
        Pattern::OfLit(sort, bits) => write_literal(out, Form::LitPattern, *sort, bits),
        Pattern::Default => {
            out.push(Sign::Of(Form::DefaultPattern))?;
            Ok(())
        }
    }
}

// Writes a term, closed naturals as numbers.
#[cycle(write)]
fn write(alloc: Global, out: &mut Vec<Sign>, term: &Term) -> Result<(), NoMemory>
    ensures { OnOk result (out.new.items ≡ out.old.items ++ written term.now) }
{
    write_marks(out, &term.args)?;
    write_head(alloc, out, &term.head)?;
    for arg in &term.args {
        write_arg(alloc, out, arg)?;
    }
    Ok(())
}

#[cycle(write)]
fn write_arg(alloc: Global, out: &mut Vec<Sign>, arg: &Arg) -> Result<(), NoMemory>
    ensures { OnOk result (out.new.items ≡ out.old.items ++ in_arg arg.now) }
{
    match arg {
        Arg::OfTerm(term) => write(alloc, out, term),
        Arg::OfType(ty) => write_numbered(alloc, out, ty),
    }
}

#[cycle(write)]
#[tactic(auto, unfolding(crate::specs::TermSigns::signs, chw_terms::specs::Evaluated::evaluated_in))]
fn write_head(alloc: Global, out: &mut Vec<Sign>, head: &Head) -> Result<(), NoMemory>
    ensures { OnOk result (out.new.items ≡ out.old.items ++ written (tree_of head.now)) }
{
    match head {
        Head::Var(x) => write_number(out, Form::Var, x.number),
        Head::Global(d) => write_number(out, Form::Global, d.number),
        Head::Made(m) => write_number(out, Form::Made, m.number),
        Head::Con(c) => write_number(out, Form::Con, c.number),
        Head::PrimOf(which) => write_prim(out, *which),
        Head::Lit(sort, bits) => write_literal(out, Form::Literal, *sort, bits),
        Head::Lam(ty, body) => {
            write_typed(alloc, out, Form::Lam, ty)?;
            write(alloc, out, body)
        }
        Head::TyLam(kind, body) => {
            write_kind(out, Form::TyLam, *kind)?;
            write(alloc, out, body)
        }
        Head::LetRec(bindings, body) => {
            write_group(alloc, out, bindings)?;
            write(alloc, out, body)
        }
        Head::VecLit(ty, elements) => {
            write_typed(alloc, out, Form::Elements, ty)?;
            write_all(alloc, out, elements)
        }
        Head::Case(on, alts) => {
            out.push(Sign::Of(Form::Case))?;
            write(alloc, out, on)?;
            write_alts(alloc, out, alts)
        }
    }
}

#[cycle(write)]
fn write_all(alloc: Global, out: &mut Vec<Sign>, elements: &[Term]) -> Result<(), NoMemory>
    ensures { OnOk result (out.new.items ≡ out.old.items ++ written_all (terms_of elements.now)) }
{
    for element in elements {
        write_element(alloc, out, element)?;
    }
    out.push(Sign::Of(Form::NoTerms))?;
    Ok(())
}

#[cycle(write)]
fn write_element(alloc: Global, out: &mut Vec<Sign>, element: &Term) -> Result<(), NoMemory>
    ensures { OnOk result (out.new.items ≡ out.old.items ++ in_element element.now) }
{
    out.push(Sign::Of(Form::OneTerm))?;
    write(alloc, out, element)
}

// Writes the form of a letrec and its group.
#[cycle(write)]
fn write_group(alloc: Global, out: &mut Vec<Sign>, group: &[Binding]) -> Result<(), NoMemory>
    ensures { OnOk result (out.new.items ≡ out.old.items ++ written_group (group_of group.now)) }
{
    out.push(Sign::Of(Form::LetRec))?;
    for binding in group {
        write_binding(alloc, out, binding)?;
    }
    out.push(Sign::Of(Form::NoBindings))?;
    Ok(())
}

#[cycle(write)]
fn write_binding(alloc: Global, out: &mut Vec<Sign>, binding: &Binding) -> Result<(), NoMemory>
    ensures { OnOk result (out.new.items ≡ out.old.items ++ in_binding binding.now) }
{
    write_typed(alloc, out, Form::OneBinding, &binding.ty)?;
    write(alloc, out, &binding.body)
}

#[cycle(write)]
fn write_alts(alloc: Global, out: &mut Vec<Sign>, alts: &[Alt]) -> Result<(), NoMemory>
    ensures { OnOk result (out.new.items ≡ out.old.items ++ written_alts (alts_of alts.now)) }
{
    for alt in alts {
        write_alt(alloc, out, alt)?;
    }
    out.push(Sign::Of(Form::NoAlts))?;
    Ok(())
}

#[cycle(write)]
fn write_alt(alloc: Global, out: &mut Vec<Sign>, alt: &Alt) -> Result<(), NoMemory>
    ensures { OnOk result (out.new.items ≡ out.old.items ++ in_alt alt.now) }
{
    out.push(Sign::Of(Form::OneAlt))?;
    write_pattern(out, &alt.pattern)?;
    write(alloc, out, &alt.body)
}
