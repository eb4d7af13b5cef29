//! The names that a description declares.
ghost use Rattle.std.specs.Prelude.{◌≡◌, [], OnOk, IfOk};
ghost use Rattle.chw_names.specs.Globals.{globals_of, names_in, no_names};
ghost use Rattle.chw_names.specs.Twices.{global_twices, space_twices};
ghost use Rattle.chw_names.specs.Words.{Meets};

use crate::least::Least;
use crate::space::{Space, declare_space};
use chw_base::NoMemory;
use chw_grammar::Declaration;
use name_tables::Declared;
use std::alloc::Global;

/// The names of a description by their name spaces, the built-in ones first. Of equal names in one space only the first counts.
#[derive(Drop)]
pub struct Globals<'t> {
    pub domains: Declared<'t>,
    pub data_types: Declared<'t>,
    pub constructors: Declared<'t>,
    /// The primitives, and the definitions.
    pub definitions: Declared<'t>,
}

impl<'t> Globals<'t> {
    /// The names of declarations. A word that declares a name again is met.
    pub fn of(
        alloc: Global,
        least: &mut Least<'t>,
        declarations: &'t [Declaration],
    ) -> Result<Globals<'t>, NoMemory>
        ensures names { IfOk result (λ globals. globals ≡ globals_of declarations.now) }
        ensures twices { OnOk result (Meets least.old least.new (global_twices declarations.now)) }
    {
        let mut globals = Globals::none(alloc);
        match globals.declare(least, declarations) {
            Ok(()) => Ok(globals),
            Err(fault) => {
                drop(globals);
                Err(fault)
            }
        }
    }

    /// No names.
    fn none(alloc: Global) -> Globals<'t>
        ensures { result ≡ no_names }
    {
        Globals {
            domains: Declared::new(alloc),
            data_types: Declared::new(alloc),
            constructors: Declared::new(alloc),
            definitions: Declared::new(alloc),
        }
    }

    /// Declares the built-in names and those of declarations, where there are no names yet.
    fn declare(
        &mut self,
        least: &mut Least<'t>,
        declarations: &'t [Declaration],
    ) -> Result<(), NoMemory>
        ensures names { OnOk result (self.old ≡ no_names → self.new ≡ globals_of declarations.now) }
        ensures twices { OnOk result (self.old ≡ no_names → Meets least.old least.new (global_twices declarations.now)) }
    {
        names_in(&mut self.domains, least, declarations, Space::Domains)?;
        names_in(&mut self.data_types, least, declarations, Space::DataTypes)?;
        names_in(
            &mut self.constructors,
            least,
            declarations,
            Space::Constructors,
        )?;
        names_in(
            &mut self.definitions,
            least,
            declarations,
            Space::Definitions,
        )?;
        Ok(())
    }
}

/// Declares the built-in names of one name space and those of declarations, where there are no names yet.
pub(crate) fn names_in<'t>(
    names: &mut Declared<'t>,
    least: &mut Least<'t>,
    declarations: &'t [Declaration],
    space: Space,
) -> Result<(), NoMemory>
    ensures names { OnOk result (names.old ≡ [] → names.new ≡ names_in space declarations.now) }
    ensures twices { OnOk result (names.old ≡ [] → Meets least.old least.new (space_twices declarations.now space)) }
{
    space.declare_built_in(names)?;
    declare_space(names, least, declarations, space)?;
    Ok(())
}
