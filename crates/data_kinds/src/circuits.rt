//! Which data types are circuits, by the kinds of their fields.
ghost use Rattle.std.specs.Prelude.{◌≡◌, length, reverse, MatchBool, Some};
ghost use Rattle.chw_types.specs.declared.kind.Kind.TheVariants.{Cir};
ghost use Rattle.chw_types.specs.Kinds.{KindOf};
ghost use Rattle.chw_terms.specs.Tidy.{HasCircuit};
ghost use Rattle.data_kinds.specs.Circuits.{is_cir, SomeCircuit};
ghost use Rattle.data_kinds.specs.Kinds.{IsKindOfFields};

use chw_base::Name;
use chw_types::{ConDecl, Data, Kind, KindFault, Ty, kind_of};

fn is_cir(found: Result<Kind, KindFault>) -> bool
    ensures { result ≡ is_cir found }
{
    matches!(found, Ok(Kind::Cir))
}

// Whether a type is a circuit, where its variables have these kinds, the outermost first.
fn is_circuit(t: &Ty, scope: &[Kind], datas: &[Data], domains: &[Name]) -> bool
    ensures { MatchBool result (KindOf datas.now (length domains.now) (reverse scope.now) t.now Cir)
        (KindOf datas.now (length domains.now) (reverse scope.now) t.now Cir → ⊥) }
{
    is_cir(kind_of(t, scope, datas, domains))
}

// Whether a field of a constructor is a circuit.
fn has_circuit_field(con: &ConDecl, scope: &[Kind], datas: &[Data], domains: &[Name]) -> bool
    ensures { MatchBool result (SomeCircuit datas.now (length domains.now) (reverse scope.now) con.now)
        (SomeCircuit datas.now (length domains.now) (reverse scope.now) con.now → ⊥) }
{
    for field in con.fields.as_slice() {
        if is_circuit(field, scope, datas, domains) {
            return true;
        }
    }
    false
}

// Whether a field of a data type is a circuit.
fn has_circuit(it: &Data, datas: &[Data], domains: &[Name]) -> bool
    ensures { MatchBool result (HasCircuit datas.now (length domains.now) it.now) (HasCircuit datas.now (length domains.now) it.now → ⊥) }
{
    let params = it.params.as_slice();
    for con in it.cons.as_slice() {
        if has_circuit_field(con, params, datas, domains) {
            return true;
        }
    }
    false
}

/// The kind of a data type by those of its fields: a circuit where a field is one, and else values.
pub(crate) fn kind_by_fields(it: &Data, datas: &[Data], domains: &[Name]) -> Kind
    ensures { IsKindOfFields datas.now (length domains.now) (Some it.now) result }
{
    if has_circuit(it, datas, domains) {
        Kind::Cir
    } else {
        Kind::Val
    }
}
