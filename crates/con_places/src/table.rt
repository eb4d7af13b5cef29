//! The table of constructors.
ghost use Rattle.std.specs.Prelude.{◌≡◌, ◌++◌, IfOk, OnOk, MatchOption, None};
ghost use Rattle.chw_terms.specs.Constructors.{con_at};
ghost use Rattle.con_places.specs.Constructing.{IsConstructor};
ghost use Rattle.con_places.specs.Places.{places_of};

use chw_base::{ConId, DataId, NoMemory, narrow};
use chw_types::{ConDecl, Data};
use std::alloc::Global;
use std::marker::Model;

/// A constructor of a program.
#[derive(Clone, Copy)]
pub struct Constructor<'a> {
    /// The number of its data type.
    pub of: DataId,
    pub it: &'a Data,
    pub decl: &'a ConDecl,
    /// Its place among the constructors of its data type, from 0.
    pub place: u32,
}

/// Where a constructor stands.
#[derive(Clone, Copy)]
struct Place {
    /// The number of its data type.
    of: u32,
    /// Its place among the constructors of its data type, from 0.
    place: u32,
}

/// The constructors of a program by their numbers. Contracts see the program's data types.
#[derive(Drop)]
pub struct Constructors<'a> {
    datas: &'a [Data],
    /// Where each constructor stands, in order of their numbers.
    places: Vec<Place>,
}

impl<'a> Model for Constructors<'a> {
    ghost use Rattle.std.specs.Prelude.{List, length};
    ghost use Rattle.std.specs.Coded.{coded_list};
    ghost use Rattle.chw_types.specs.declared.declarations.Data.{Data};
    ghost use Rattle.chw_types.specs.contracts.declarations.Data as data_type;

    ghost Value = { List Data };

    ghost coded = { coded_list data_type.the_row.coded };

    ghost use Rattle.con_places.specs.Places.{AreOfFirst};

    ghost view = { λ c. c.datas.now };

    ghost invariant = { λ c. AreOfFirst c.datas.now (length c.datas.now) c.places.items };
}

impl<'a> Constructors<'a> {
    /// The constructors of these data types.
    ///
    /// Where a number would pass 32 bits, the answer is want of memory.
    pub fn of(alloc: Global, datas: &'a [Data]) -> Result<Constructors<'a>, NoMemory>
        ensures { IfOk result (λ table. table ≡ datas.now) }
    {
        let mut places = Vec::new(alloc);
        for (number, it) in datas.iter().enumerate() {
            push_places(&mut places, narrow(number)?, narrow(it.cons.len())?)?;
        }
        Ok(Constructors { datas, places })
    }

    /// The constructor of this number, where there is one.
    pub fn at(&self, at: ConId) -> Option<Constructor<'a>>
        ensures { MatchOption result (con_at self.now at.number ≡ None) (λ c. IsConstructor self.now at.number c) }
    {
        let Some(stands) = self.places.get(at.number as usize) else {
            return None;
        };
        let it = &self.datas[stands.of as usize];
        let cons = it.cons.as_slice();
        let decl = &cons[stands.place as usize];
        Some(Constructor {
            of: DataId { number: stands.of },
            it,
            decl,
            place: stands.place,
        })
    }
}

// Puts the places of so many constructors of a data type behind others.
fn push_places(places: &mut Vec<Place>, of: u32, count: u32) -> Result<(), NoMemory>
    ensures { OnOk result (places.new.items ≡ places.old.items ++ places_of of count) }
{
    for place in 0..count {
        places.push(Place { of, place })?;
    }
    Ok(())
}
