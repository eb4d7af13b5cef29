//! The numbers of made definitions.
ghost use Rattle.std.specs.Prelude.{◌≡◌, IfOk};
ghost use Rattle.specialise.specs.Seeds.{made_of_seed, IsNumbered};

use crate::opened::first_body;
use chw_base::{MadeId, NoMemory};
use chw_terms::{Made, Program, Sort, Term};
use chw_types::Ty;
use made_table::Table;
use std::alloc::Global;

/// What a definition is made of.
#[derive(Drop)]
pub(crate) struct Seed {
    pub(crate) origin: Term,
    pub(crate) ty: Ty,
    pub(crate) sort: Sort,
}

/// The number of a made definition, and the definition if it is new.
#[derive(Drop)]
pub(crate) struct Numbered {
    pub(crate) number: MadeId,
    pub(crate) definition: Option<Made>,
}

/// The made definition of this: that which has the origin, or a new one.
pub(crate) fn number_for(
    alloc: Global,
    table: &Table,
    program: &Program,
    seed: Seed,
) -> Result<Numbered, NoMemory>
    ensures { IfOk result (λ n. IsNumbered program.now table.now (made_of_seed seed) n.number.number n.definition) }
{
    if let Some(number) = table.number_of(alloc, &seed.origin)? {
        drop(seed);
        return Ok(Numbered {
            number,
            definition: None,
        });
    }
    let body = first_body(alloc, program, &seed.origin)?;
    let Seed { origin, ty, sort } = seed;
    Ok(Numbered {
        number: MadeId {
            number: table.len(),
        },
        definition: Some(Made {
            origin,
            body,
            ty,
            sort,
        }),
    })
}
