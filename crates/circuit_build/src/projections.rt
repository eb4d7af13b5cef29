//! The cells of projections: `case x of { C z1 .. zn -> zi; }`.
ghost use Rattle.std.specs.Prelude.{◌≡◌, ◌∷◌, [], ℕ, List, IfOk, OnOk};
ghost use Rattle.chw_terms.specs.declared.scene.Sort.TheVariants.{Circuit};
ghost use Rattle.chw_terms.specs.TermTree.{case_of, var};
ghost use Rattle.chw_types.specs.TypeTree.{TypeTree};
ghost use Rattle.chw_typing.specs.HeadTypes.{PatternOf};
ghost use Rattle.chw_terms.specs.TermView.{alts_of};
ghost use Rattle.net_built.specs.Circuits.{CircuitCells, HaveParts};
ghost use Rattle.net_built.specs.Data.{HasParts};
ghost use Rattle.net_ready.specs.Ready.{types_on, ProjectionReady};
ghost use Rattle.value_build.specs.Added.{Adds, next};
ghost use Rattle.value_build.specs.InScope.{as_variable, in_scope};
ghost use Rattle.circuit_build.specs.Projections.{AreCounts, counted_field, IsFieldCopied, IsProjected};
ghost use Rattle.circuit_build.specs.Shapes.{IsConPattern};

use crate::ports::{count_wires, port_parts};
use crate::views::{fields_bound, one_alternative};
use chw_base::{NoMemory, VarIx, WireId};
use chw_terms::{Alt, Pattern, Term};
use chw_types::Ty;
use net_pieces::{Pieces, copies};
use std::alloc::Global;
use value_build::Base;
use value_build::fields::pattern_fields;
use value_build::scope::{Variable, name_of, variable_at};

// How many wires a port has.
fn wires_of_port(alloc: Global, base: &mut Base<'_>, t: &Ty) -> Result<u32, NoMemory>
    requires port { (ws : List ℕ) × HasParts base.old.datas Circuit t.now ws }
    ensures count { IfOk result (λ n. AreCounts base.old.datas (t.now ∷ []) (n ∷ [])) }
    ensures same { base.new ≡ base.old }
{
    let widths = port_parts(alloc, base, t)?;
    count_wires(&widths)
}

// How many wires each of these ports has.
fn wires_of_ports(alloc: Global, base: &mut Base<'_>, types: &[Ty]) -> Result<Vec<u32>, NoMemory>
    requires ports { (parts : List (List ℕ)) × HaveParts base.old.datas types.now parts }
    ensures counts { IfOk result (λ ns. AreCounts base.old.datas types.now ns.items) }
    ensures same { base.new ≡ base.old }
{
    let mut counts = Vec::new(alloc);
    for t in types {
        counts.push(wires_of_port(alloc, base, t)?)?;
    }
    Ok(counts)
}

// The wires of the field of this number, among those of fields that have so many.
fn field_wires<'w>(counts: &[u32], number: u32, wires: &'w [WireId]) -> &'w [WireId]
    ensures { result.now ≡ counted_field number counts.now wires.now }
{
    let mut left = wires;
    for (i, count) in counts.iter().enumerate() {
        let count = (*count as usize).min(left.len());
        if i == number as usize {
            return &left[..count];
        }
        left = &left[count..];
    }
    &[]
}

// Appends copies of the wires of the field of this number of a variable with fields of these types.
fn field_copied(
    alloc: Global,
    base: &mut Base<'_>,
    into: &mut Pieces,
    widths: &[u32],
    wires: &[WireId],
    types: &[Ty],
    number: u32,
) -> Result<(), NoMemory>
    requires ports { (parts : List (List ℕ)) × HaveParts base.old.datas types.now parts }
    ensures copied { OnOk result (IsFieldCopied base.old.datas types.now number wires.now widths.now into.old into.new) }
    ensures same { base.new ≡ base.old }
{
    let counts = wires_of_ports(alloc, base, types)?;
    copies::copies(into, field_wires(&counts, number, wires), widths)
}

// Appends copies of the wires of a field of a variable, which is this variable of a pattern.
fn projected(
    alloc: Global,
    base: &mut Base<'_>,
    into: &mut Pieces,
    widths: &[u32],
    it: &Variable,
    q: &Pattern,
    z: VarIx,
) -> Result<(), NoMemory>
    requires form { IsConPattern q.now }
    requires fields { (fields : List TypeTree) × (parts : List (List ℕ)) × PatternOf base.old.datas it.now.ty q.now fields
        × HaveParts base.old.datas fields parts }
    ensures projected { OnOk result (IsProjected base.old.datas (as_variable it.now) q.now z.number widths.now into.old into.new) }
    ensures same { base.new ≡ base.old }
{
    let count = fields_bound(q);
    let number = count.saturating_sub(1).saturating_sub(z.number);
    let types = pattern_fields(alloc, base, &it.ty, q)?;
    let copied = field_copied(
        alloc,
        base,
        into,
        widths,
        it.wires.as_slice(),
        &types,
        number,
    );
    drop(types);
    copied
}

/// Appends the cells of a projection.
pub(crate) fn projection(
    alloc: Global,
    base: &mut Base<'_>,
    scope: &[Variable],
    into: &mut Pieces,
    widths: &[u32],
    on: &Term,
    alts: &[Alt],
) -> Result<(), NoMemory>
    requires ready { (x : ℕ) × (on.now ≡ var x) × ProjectionReady base.old.datas (types_on (in_scope scope.now)) x (alts_of alts.now) }
    ensures cells { OnOk result (Adds (CircuitCells base.old (in_scope scope.now) (next into.old) widths.now
        (case_of on.now (alts_of alts.now)) [] []) into.old into.new) }
    ensures same { base.new ≡ base.old }
{
    let x = name_of(on);
    let only = one_alternative(alts);
    let z = name_of(&only.body);
    let it = variable_at(alloc, scope, x)?;
    let copied = projected(alloc, base, into, widths, &it, &only.pattern, z);
    drop(it);
    copied
}
