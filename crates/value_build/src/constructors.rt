//! The cells of constructors.
ghost use Rattle.std.specs.Prelude.{◌≡◌, IfOk, OnOk};
ghost use Rattle.chw_layout.specs.Measured.{fits, HasWidth, MeasuredFields};
ghost use Rattle.chw_terms.specs.TermTree.{con};
ghost use Rattle.chw_types.specs.Arguments.{arguments};
ghost use Rattle.chw_types.specs.TypeMoves.{sub};
ghost use Rattle.chw_types.specs.TypeView.{trees_of};
ghost use Rattle.net_built.specs.Bodies.{ValueCells};
ghost use Rattle.net_ready.specs.Ready.{ConstructorReady};
ghost use Rattle.value_build.specs.Added.{Adds, next};
ghost use Rattle.value_build.specs.Arguments.{terms_in, types_in};
ghost use Rattle.value_build.specs.InScope.{in_scope};
ghost use Rattle.value_build.specs.ReadyParts.{FieldsMeasured, IsMeasured};

use crate::arguments::{operand_wires, types};
use crate::base::Base;
use crate::scope::Variable;
use chw_base::{ConId, NoMemory};
use chw_layout::tag_width;
use chw_terms::Arg;
use chw_types::{Ty, put_arguments};
use net_pieces::{Pieces, data};
use std::alloc::Global;

// The width of a field with the arguments put in.
fn field_width(alloc: Global, base: &mut Base<'_>, field: &Ty, args: &[Ty]) -> Result<u32, NoMemory>
    requires { IsMeasured base.old.datas (sub field.now (arguments (trees_of args.now))) }
    ensures width { IfOk result (HasWidth base.old.datas (sub field.now (arguments (trees_of args.now)))) }
    ensures same { base.new ≡ base.old }
{
    let t = put_arguments(alloc, field, args)?;
    let width = base.width(alloc, &t);
    drop(t);
    width
}

// How many bits these fields have together, with the arguments put in.
fn fields_width(
    alloc: Global,
    base: &mut Base<'_>,
    fields: &[Ty],
    args: &[Ty],
) -> Result<u32, NoMemory>
    requires { FieldsMeasured base.old.datas fields.now (arguments (trees_of args.now)) }
    ensures width { IfOk result (λ w. MeasuredFields base.old.datas fields.now (arguments (trees_of args.now)) (fits w)) }
    ensures same { base.new ≡ base.old }
{
    let mut sum: u32 = 0;
    for i in (0..fields.len()).rev() {
        let width = field_width(alloc, base, &fields[i], args)?;
        sum = width.saturating_add(sum);
    }
    Ok(sum)
}

// How many bits the fields have together at the types among arguments.
fn fields_width_at(
    alloc: Global,
    base: &mut Base<'_>,
    fields: &[Ty],
    args: &[Arg],
) -> Result<u32, NoMemory>
    requires { FieldsMeasured base.old.datas fields.now (arguments (trees_of (types_in args.now))) }
    ensures width { IfOk result (λ w. MeasuredFields base.old.datas fields.now (arguments (trees_of (types_in args.now))) (fits w)) }
    ensures same { base.new ≡ base.old }
{
    let types = types(alloc, args)?;
    let width = fields_width(alloc, base, fields, &types);
    drop(types);
    width
}

/// Appends the cells of a constructor on these arguments.
pub(crate) fn built(
    alloc: Global,
    base: &mut Base<'_>,
    scope: &[Variable],
    into: &mut Pieces,
    w: u32,
    c: ConId,
    args: &[Arg],
) -> Result<(), NoMemory>
    requires { ConstructorReady base.old.datas c.number args.now }
    ensures cells { OnOk result (Adds (ValueCells base.old (in_scope scope.now) (next into.old) w
        (con c.number) (types_in args.now) (terms_in args.now)) into.old into.new) }
    ensures same { base.new ≡ base.old }
{
    let Some(it) = base.constructor(c) else {
        unreachable!();
    };
    let fields = fields_width_at(alloc, base, it.decl.fields.as_slice(), args)?;
    let wires = operand_wires(alloc, scope, args)?;
    let tag = tag_width(it.it.cons.len());
    data::constructed(into, alloc, tag, it.place, fields, w, &wires)
}
