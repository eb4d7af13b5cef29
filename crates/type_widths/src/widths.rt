//! The table of widths.
ghost use Rattle.std.specs.Prelude.{◌≡◌, IfOk, IfSome};
ghost use Rattle.chw_base.specs.Outcome.{IfFault};
ghost use Rattle.chw_types.specs.References.{HasNoCycle};
ghost use Rattle.chw_layout.specs.Measured.{HasWidth};
ghost use Rattle.chw_layout.specs.Refusals.{IsRefusal};
ghost use Rattle.type_widths.specs.Outcomes.{IsOutcomeOf};

use crate::measuring::closed_outcome;
use crate::outcome::{Outcome, told};
use chw_base::{NoMemory, Or};
use chw_layout::NoLayout;
use chw_layout::laws::measured_types;
use chw_types::{Data, Ty};
use indexmap::IndexMap;
use std::alloc::Global;
use std::marker::Model;

/// A data type at arguments of these outcomes.
#[derive(PartialEq, Eq, Hash, Drop)]
pub(crate) struct Instance {
    pub(crate) at: u32,
    pub(crate) outs: Vec<Outcome>,
}

/// The widths of types over the data types of a program. Contracts see the data types.
///
/// A type is measured when it is first asked for. Each data type is looked at once for arguments of
/// the same outcomes, whatever types ask for it.
#[derive(Drop)]
pub struct Widths<'a> {
    datas: &'a [Data],
    /// What data types come to, where that is known.
    known: IndexMap<Instance, Outcome>,
}

impl<'a> Model for Widths<'a> {
    ghost use Rattle.std.specs.Prelude.{List};
    ghost use Rattle.std.specs.Coded.{coded_list};
    ghost use Rattle.chw_types.specs.declared.declarations.Data.{Data};
    ghost use Rattle.chw_types.specs.contracts.declarations.Data as data_type;

    ghost Value = { List Data };

    ghost coded = { coded_list data_type.the_row.coded };

    ghost use Rattle.chw_types.specs.References.{HasNoCycle};
    ghost use Rattle.type_widths.specs.Known.{AreRight};

    ghost view = { λ w. w.datas.now };

    ghost invariant = { λ w. HasNoCycle w.datas.now × AreRight w.datas.now w.known.entries };
}

impl<'a> Widths<'a> {
    /// A table in which nothing is known yet.
    pub fn of(alloc: Global, datas: &'a [Data]) -> Widths<'a>
        requires { HasNoCycle datas.now }
        ensures { result ≡ datas.now }
    {
        Widths {
            datas,
            known: IndexMap::new(alloc),
        }
    }

    /// The data types, of which none leads back to itself.
    pub fn datas(&self) -> &'a [Data]
        ensures datas { result.now ≡ self.now }
        ensures order { HasNoCycle self.now }
    {
        self.datas
    }

    /// How many bits each value of a closed type has, or why there is no such number, as
    /// `chw_layout::width` says.
    pub fn width(&mut self, alloc: Global, t: &Ty) -> Result<u32, Or<NoLayout>>
        ensures width { IfOk result (λ w. HasWidth self.old t.now w) }
        ensures refused { IfFault result (IsRefusal self.old t.now) }
        ensures same { self.new ≡ self.old }
    {
        measured_types();
        let outcome = closed_outcome(alloc, t, self)?;
        told(outcome)
    }

    // What a data type comes to at arguments of these outcomes, where that is known.
    pub(crate) fn recall(&self, instance: &Instance) -> Option<Outcome>
        ensures { IfSome result (IsOutcomeOf self.now instance.now.at instance.now.outs.items) }
    {
        self.known.get(instance).copied()
    }

    // Keeps what a data type comes to at arguments of these outcomes.
    pub(crate) fn remember(&mut self, instance: Instance, outcome: Outcome) -> Result<(), NoMemory>
        requires { IsOutcomeOf self.old instance.at instance.outs.items outcome }
        ensures { self.new ≡ self.old }
    {
        self.known.insert(instance, outcome)?;
        Ok(())
    }
}
