//! Types as signs.
ghost use Rattle.std.specs.Prelude.{◌≡◌, ◌++◌, ◌∷◌, [], OnOk};
ghost use Rattle.chw_types.specs.Forms.{sort_of};
ghost use Rattle.term_signs.specs.declared.alphabet.Sign.TheVariants.{Of, Number, OfKind, OfSort};
ghost use Rattle.term_signs.specs.TypeSigns.{pair_form, type_signs};

use crate::alphabet::{Form, Sign};
use chw_base::NoMemory;
use chw_types::{Kind, Scalar, Ty, TyNode};

/// Writes a form and a number.
pub(crate) fn write_number(out: &mut Vec<Sign>, form: Form, number: u32) -> Result<(), NoMemory>
    ensures { OnOk result (out.new.items ≡ out.old.items ++ (Of form ∷ Number number ∷ [])) }
{
    out.push(Sign::Of(form))?;
    out.push(Sign::Number(number))?;
    Ok(())
}

/// Writes a form and a kind.
pub(crate) fn write_kind(out: &mut Vec<Sign>, form: Form, kind: Kind) -> Result<(), NoMemory>
    ensures { OnOk result (out.new.items ≡ out.old.items ++ (Of form ∷ OfKind kind ∷ [])) }
{
    out.push(Sign::Of(form))?;
    out.push(Sign::OfKind(kind))?;
    Ok(())
}

/// Writes a form and a sort of scalars.
pub(crate) fn write_sort(out: &mut Vec<Sign>, form: Form, sort: Scalar) -> Result<(), NoMemory>
    ensures { OnOk result (out.new.items ≡ out.old.items ++ (Of form ∷ OfSort sort ∷ [])) }
{
    out.push(Sign::Of(form))?;
    out.push(Sign::OfSort(sort))?;
    Ok(())
}

// The sort of a scalar.
fn sort_of(ty: &Ty) -> Scalar
    ensures { result ≡ sort_of ty.now }
{
    match &ty.node {
        TyNode::Unsigned(_) => Scalar::U,
        TyNode::Signed(_) => Scalar::S,
        _ => Scalar::B,
    }
}

// The form of a type of two parts.
fn pair_form(ty: &Ty) -> Form
    ensures { result ≡ pair_form ty.now }
{
    match &ty.node {
        TyNode::Sum(_, _) => Form::Sum,
        TyNode::Times(_, _) => Form::Product,
        TyNode::Vec(_, _) => Form::Vector,
        TyNode::Fun(_, _) => Form::Fun,
        _ => Form::Signal,
    }
}

/// Writes a type.
#[tactic(auto, unfolding(crate::specs::TypeSigns::type_signs))]
pub(crate) fn write_type(out: &mut Vec<Sign>, ty: &Ty) -> Result<(), NoMemory>
    ensures { OnOk result (out.new.items ≡ out.old.items ++ type_signs ty.now) }
{
    match &ty.node {
        TyNode::Var(x) => write_number(out, Form::TyVar, x.number),
        TyNode::NatLit(n) => write_number(out, Form::Numeral, *n),
        TyNode::DomOf(d) => write_number(out, Form::Domain, d.number),
        TyNode::Unsigned(of) | TyNode::Signed(of) | TyNode::BitVector(of) => {
            write_sort(out, Form::Word, sort_of(ty))?;
            write_type(out, of)
        }
        TyNode::Sum(a, b)
        | TyNode::Times(a, b)
        | TyNode::Vec(a, b)
        | TyNode::Fun(a, b)
        | TyNode::Signal(a, b) => {
            out.push(Sign::Of(pair_form(ty)))?;
            write_type(out, a)?;
            write_type(out, b)
        }
        TyNode::DataOf(d, args) => {
            write_number(out, Form::Data, d.number)?;
            for arg in args {
                out.push(Sign::Of(Form::OneType))?;
                write_type(out, arg)?;
            }
            out.push(Sign::Of(Form::NoTypes))?;
            Ok(())
        }
        TyNode::Forall(kind, of) => {
            write_kind(out, Form::ForAll, *kind)?;
            write_type(out, of)
        }
    }
}
