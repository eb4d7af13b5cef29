//! Made definitions in the order in which they were placed.
ghost use Rattle.std.specs.Prelude.{◌≡◌, ◌<◌, [], false, replicate, IfOk, OnOk};
ghost use Rattle.net_built.specs.Modules.{holds};
ghost use Rattle.net_build.specs.Marks.{AreBelow, with_placed};

use chw_base::NoMemory;
use std::alloc::Global;
use std::marker::Model;

/// The made definitions that are placed, and for each made definition whether it is.
/// Contracts see how many made definitions there are, and the numbers of those that are placed.
#[derive(Drop)]
pub(crate) struct Placed {
    order: Vec<u32>,
    is_placed: Vec<bool>,
}

impl Model for Placed {
    ghost use Rattle.std.specs.Prelude.{length};
    ghost use Rattle.net_build.specs.Marks.{AreBelow, AreMarks, Placings, coded_placings};

    ghost Value = { Placings };

    ghost coded = { coded_placings };

    ghost view = { λ p. record { count = length p.is_placed.items; order = p.order.items } };

    ghost invariant = { λ p. AreMarks p.order.items p.is_placed.items
        × AreBelow (length p.is_placed.items) p.order.items };
}

impl Placed {
    /// Of so many made definitions none.
    pub(crate) fn none(alloc: Global, count: usize) -> Result<Placed, NoMemory>
        ensures { IfOk result (λ p. p ≡ record { count = count; order = [] }) }
    {
        let is_placed = no_marks(alloc, count)?;
        Ok(Placed {
            order: Vec::new(alloc),
            is_placed,
        })
    }

    /// Whether a made definition is placed.
    pub(crate) fn has(&self, m: u32) -> bool
        requires { m < self.now.count }
        ensures { result ≡ holds self.now.order m }
    {
        self.is_placed[m as usize]
    }

    /// Places one more.
    pub(crate) fn put(&mut self, m: u32) -> Result<(), NoMemory>
        requires { m < self.old.count }
        ensures { OnOk result (self.new ≡ with_placed self.old m) }
    {
        self.order.push(m)?;
        self.is_placed[m as usize] = true;
        Ok(())
    }

    /// The made definitions that are placed, in order.
    pub(crate) fn into_order(self) -> Vec<u32>
        ensures order { result.items ≡ self.order }
        ensures below { AreBelow self.count result.items }
    {
        self.order
    }
}

// So many marks that aren't set.
fn no_marks(alloc: Global, count: usize) -> Result<Vec<bool>, NoMemory>
    ensures { IfOk result (λ marks. marks.items ≡ replicate count false) }
{
    Ok(vec![in alloc; false; count]?)
}
