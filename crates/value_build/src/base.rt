//! Over what bodies are built.
ghost use Rattle.std.specs.Prelude.{◌≡◌, None, IfOk, MatchOption};
ghost use Rattle.chw_types.specs.References.{HasNoCycle};
ghost use Rattle.chw_layout.specs.Measured.{HasWidth};
ghost use Rattle.chw_terms.specs.Constructors.{con_at};
ghost use Rattle.con_places.specs.Constructing.{IsConstructor};
ghost use Rattle.net_built.specs.Circuits.{module_of};
ghost use Rattle.value_build.specs.ReadyParts.{IsMeasured};

use crate::places::Places;
use crate::widths::width_of;
use chw_base::{ConId, MadeId, ModId, NoMemory};
use chw_types::{Data, Ty};
use con_places::{Constructor, Constructors};
use std::alloc::Global;
use std::marker::Model;
use type_widths::Widths;

/// The data types of a program with the widths of types over them, its constructors, and the made definitions that have modules.
/// Contracts see the data types and the numbers of the made definitions.
#[derive(Drop)]
pub struct Base<'a> {
    widths: Widths<'a>,
    constructors: Constructors<'a>,
    places: Places,
}

impl<'a> Model for Base<'a> {
    ghost use Rattle.std.specs.Prelude.{◌≡◌};
    ghost use Rattle.net_built.specs.Circuits.{Ground};
    ghost use Rattle.value_build.specs.Grounds.{coded_ground};

    ghost Value = { Ground };

    ghost coded = { coded_ground };

    ghost view = { λ b. record { datas = b.widths; order = b.places } };

    ghost invariant = { λ b. b.constructors ≡ b.widths };
}

impl<'a> Base<'a> {
    /// What is built over, by its parts.
    pub fn of(alloc: Global, widths: Widths<'a>, places: Places) -> Result<Base<'a>, NoMemory>
        ensures { IfOk result (λ b. b ≡ record { datas = widths.entry; order = places }) }
    {
        let constructors = Constructors::of(alloc, widths.datas())?;
        Ok(Base {
            widths,
            constructors,
            places,
        })
    }

    /// The same with modules in this order.
    pub fn in_order(self, places: Places) -> Base<'a>
        ensures { result ≡ record { datas = self.entry.datas; order = places } }
    {
        let Base {
            widths,
            constructors,
            places: before,
        } = self;
        drop(before);
        Base {
            widths,
            constructors,
            places,
        }
    }

    /// The made definitions that have modules, in the order of the modules.
    pub fn order(&self) -> &[u32]
        ensures { result.now ≡ self.now.order }
    {
        self.places.order()
    }

    /// How many bits each value of a closed type has, where there is such a number.
    pub fn width(&mut self, alloc: Global, t: &Ty) -> Result<u32, NoMemory>
        requires { IsMeasured self.old.datas t.now }
        ensures width { IfOk result (HasWidth self.old.datas t.now) }
        ensures same { self.new ≡ self.old }
    {
        width_of(alloc, t, &mut self.widths)
    }

    /// The data types, of which none leads back to itself.
    pub fn datas(&self) -> &'a [Data]
        ensures datas { result.now ≡ self.now.datas }
        ensures order { HasNoCycle self.now.datas }
    {
        self.widths.datas()
    }

    /// The constructor of this number, where there is one.
    pub fn constructor(&self, at: ConId) -> Option<Constructor<'a>>
        ensures { MatchOption result (con_at self.now.datas at.number ≡ None) (λ c. IsConstructor self.now.datas at.number c) }
    {
        self.constructors.at(at)
    }

    /// The module of a made definition, as `Places::module_of` says.
    pub fn module_of(&self, m: MadeId) -> ModId
        ensures { result ≡ module_of self.now m.number }
    {
        self.places.module_of(m)
    }
}
