//! The leaves of ports.
ghost use Rattle.std.specs.Prelude.{IfOk};
ghost use Rattle.chw_types.specs.References.{HasNoCycle};

use chw_base::{Name, NoMemory, Or, Seq, TyIx};
use chw_types::{ConDecl, Data, Kind, Ty};
use row_tables::{Unread, put};
use std::alloc::Global;
use type_ports::{leaves, type_text};

/// `data Both (a : Cir) (b : Cir) = Both a b;`
pub(crate) fn both(alloc: Global) -> Result<Vec<Data>, NoMemory>
    ensures { IfOk result (λ datas. HasNoCycle datas.items) }
{
    let first = Ty::var(TyIx { number: 1 });
    let second = Ty::var(TyIx { number: 0 });
    let fields = Vec::from_array(alloc, [first, second])?;
    let con = ConDecl {
        name: Name::from(Vec::from_slice(alloc, b"Both")?),
        fields: Seq::from(fields),
    };
    let cons = Vec::from_array(alloc, [con])?;
    let params = Vec::from_array(alloc, [Kind::Cir, Kind::Cir])?;
    let it = Data {
        name: Name::from(Vec::from_slice(alloc, b"Both")?),
        params: Seq::from(params),
        kind: Kind::Cir,
        cons: Seq::from(cons),
    };
    Ok(Vec::from_array(alloc, [it])?)
}

/// Writes each leaf's domain and payload.
pub(crate) fn put_leaves(alloc: Global, ty: &Ty, out: &mut Vec<u8>) -> Result<(), Or<Unread>> {
    let datas = both(alloc)?;
    let Some(found) = leaves(alloc, ty, &datas)? else {
        return Ok(put(out, "none")?);
    };
    for (place, leaf) in found.iter().enumerate() {
        put(out, if place == 0 { "" } else { "; " })?;
        let domain = type_text(alloc, &Ty::dom_of(leaf.dom), &[], &[])?;
        let payload = type_text(alloc, &leaf.payload, &[], &[])?;
        out.extend_from_slice(domain.as_slice())?;
        put(out, " ")?;
        out.extend_from_slice(payload.as_slice())?;
    }
    Ok(())
}
