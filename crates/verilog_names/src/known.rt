//! What a module is read by: the ports of the text, and the modules before it.
ghost use Rattle.std.specs.Prelude.{◌≡◌, IfNone, IfSome, None, Some};
ghost use Rattle.name_tables.specs.Names.{is_among, place_of};
ghost use Rattle.verilog_rules.specs.NameRules.{Place, module_named, module_names};

use crate::clocks::Clocks;
use crate::places::Places;
use std::marker::Model;
use verilog_tree::Module;

/// The ports of a text and the modules before one, which contracts see as the place at which that one is read.
#[derive(Drop)]
pub(crate) struct Known<'a, 't> {
    clocks: &'a Clocks<'t>,
    earlier: &'a [Module<'t>],
    names: &'a Places<'t>,
}

impl<'a, 't> Model for Known<'a, 't> {
    ghost use Rattle.verilog_rules.specs.NameRules.{Place};

    ghost Value = { Place };

    ghost use Rattle.std.specs.Prelude.{◌≡◌};
    ghost use Rattle.verilog_rules.specs.NameRules.{module_names};

    ghost view = { λ k. record { ports = k.clocks.now; earlier = k.earlier.now } };

    ghost invariant = { λ k. k.names.now ≡ module_names k.earlier.now };
}

impl<'a, 't> Known<'a, 't> {
    /// These ports, and these modules with their names.
    pub(crate) fn new(
        clocks: &'a Clocks<'t>,
        earlier: &'a [Module<'t>],
        names: &'a Places<'t>,
    ) -> Known<'a, 't>
        requires { names.now ≡ module_names earlier.now }
        ensures { result ≡ record { ports = clocks.now; earlier = earlier.now } }
    {
        Known {
            clocks,
            earlier,
            names,
        }
    }

    /// The ports.
    pub(crate) fn clocks(&self) -> &Clocks<'t>
        ensures { result.now ≡ self.now.ports }
    {
        self.clocks
    }

    /// Whether a module has this name.
    pub(crate) fn has(&self, name: &[u8]) -> bool
        ensures { result ≡ is_among (module_names self.now.earlier) name.now }
    {
        self.names.has(name)
    }

    /// The module of a name, and its number.
    #[tactic(auto, using(crate::proofs::Used::named_at, crate::proofs::Used::named_none, crate::proofs::Used::named_within))]
    pub(crate) fn find(&self, name: &[u8]) -> Option<(u32, &Module<'t>)>
        ensures number { IfSome result (λ r. place_of (module_names self.now.earlier) name.now ≡ Some r.0) }
        ensures module { IfSome result (λ r. module_named self.now.earlier name.now ≡ Some r.1.now) }
        ensures none { IfNone result (module_named self.now.earlier name.now ≡ None) }
        ensures no_number { IfNone result (place_of (module_names self.now.earlier) name.now ≡ None) }
    {
        let number = self.names.find(name)?;
        Some((number, &self.earlier[number as usize]))
    }
}
