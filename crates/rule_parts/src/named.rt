//! Whether a type is named in a mode.
ghost use Rattle.std.specs.Prelude.{◌↔◌, IfOk, IsTrue};
ghost use Rattle.chw_types.specs.References.{HasNoCycle};
ghost use Rattle.type_ports.specs.Ports.{IsPort};
ghost use Rattle.type_ports.specs.Representable.{Representable};
ghost use Rattle.rewriting.specs.Named.{IsNamed};

use chw_base::NoMemory;
use chw_terms::Mode;
use chw_types::{Data, Ty, TyNode};
use std::alloc::Global;
use type_ports::{leaves, representable};

/// Whether a variable of a closed type has wires at a place of this mode: representable types where a value is built, ports where a
/// circuit is, and none in a constant.
///
/// Scalars and signals of scalars are judged by their form, without memory.
pub fn is_named(alloc: Global, datas: &[Data], mode: Mode, ty: &Ty) -> Result<bool, NoMemory>
    requires { HasNoCycle datas.now }
    ensures { IfOk result (λ is. IsTrue is ↔ IsNamed datas.now mode ty.now) }
{
    match mode {
        Mode::V | Mode::HV => is_of_values(alloc, datas, ty),
        Mode::C | Mode::HC => is_port(alloc, datas, ty),
        Mode::K => Ok(false),
    }
}

// Whether values of a type are bits. A search judges the types of all bindings of a letrec at each step, and most are scalars.
fn is_of_values(alloc: Global, datas: &[Data], ty: &Ty) -> Result<bool, NoMemory>
    requires { HasNoCycle datas.now }
    ensures { IfOk result (λ is. IsTrue is ↔ Representable datas.now ty.now) }
{
    match &ty.node {
        TyNode::Unsigned(_) | TyNode::Signed(_) | TyNode::BitVector(_) => Ok(true),
        _ => representable(alloc, ty, datas),
    }
}

// Whether a type is a port: most are one signal.
fn is_port(alloc: Global, datas: &[Data], ty: &Ty) -> Result<bool, NoMemory>
    requires { HasNoCycle datas.now }
    ensures { IfOk result (λ is. IsTrue is ↔ IsPort datas.now ty.now) }
{
    if let TyNode::Signal(domain, payload) = &ty.node {
        if let TyNode::DomOf(_) = &domain.node {
            return is_of_values(alloc, datas, payload);
        }
    }
    Ok(leaves(alloc, ty, datas)?.is_some())
}
