//! What is known of the data types of a program while its ports are looked at.
ghost use Rattle.std.specs.Prelude.{◌≡◌, ◌↔◌, List, IsTrue, IfOk};
ghost use Rattle.chw_types.specs.References.{HasNoCycle};
ghost use Rattle.type_ports.specs.Representable.{Representable};
ghost use Rattle.type_ports.specs.PortsFound.{HasForm};
ghost use Rattle.chw_types.specs.TypeTree.{TypeTree, signal};

use crate::ports::{product_fields, push_fields};
use crate::representation::representable_by;
use crate::rows::{Row, no_rows};
use chw_base::limits::PORT_PARTS;
use chw_base::{DomId, NoMemory};
use chw_types::{Data, Ty, TyNode};
use std::alloc::Global;
use std::marker::Model;

/// What a type is as a port.
pub enum PortForm<'t> {
    /// A leaf: its domain, and the type of its values, which is representable.
    Single(DomId, &'t Ty),
    /// Data of one constructor, whose fields are to be looked at next.
    Product,
    /// No port.
    Other,
}

/// The data types of a program, with what was found of them so far. Contracts see the data types.
///
/// A question looks only at data types at which no question before it looked.
#[derive(Drop)]
pub struct PortTable<'a> {
    datas: &'a [Data],
    /// What is known of each data type. Nothing is before the first question, and after want of
    /// memory.
    rows: Option<Vec<Row>>,
    /// How many parts are left for the fields that are put on lists.
    parts: u32,
}

impl<'a> Model for PortTable<'a> {
    ghost use Rattle.std.specs.Prelude.{List};
    ghost use Rattle.std.specs.Coded.{coded_list};
    ghost use Rattle.chw_types.specs.declared.declarations.Data.{Data};
    ghost use Rattle.chw_types.specs.contracts.declarations.Data as data_type;

    ghost Value = { List Data };

    ghost coded = { coded_list data_type.the_row.coded };

    ghost use Rattle.type_ports.specs.RowsRight.{AreWhole};

    ghost view = { λ table. table.datas.now };

    ghost invariant = { λ table. AreWhole table.datas.now table.rows };
}

impl<'a> PortTable<'a> {
    /// A table in which nothing is known yet.
    pub fn of(datas: &'a [Data]) -> PortTable<'a>
        ensures { result ≡ datas.now }
    {
        PortTable {
            datas,
            rows: None,
            parts: PORT_PARTS,
        }
    }

    /// Whether a closed type is representable, as the function of this name says.
    pub fn representable(&mut self, alloc: Global, t: &Ty) -> Result<bool, NoMemory>
        requires { HasNoCycle self.old }
        ensures told { IfOk result (λ r. IsTrue r ↔ Representable self.old t.now) }
        ensures same { self.new ≡ self.old }
    {
        let mut rows = match self.rows.take() {
            Some(rows) => rows,
            None => no_rows(alloc, self.datas)?,
        };
        let told = representable_by(alloc, &mut rows, t, self.datas)?;
        self.rows = Some(rows);
        Ok(told)
    }

    /// Looks at a closed type as a port. If it is a product, its fields with the arguments put in
    /// come on the list, the first field last.
    ///
    /// Where a field would be deeper than `TYPE_DEPTH` or have more parts than `TYPE_PARTS`, or the
    /// fields that this table puts on lists would have more parts together than `PORT_PARTS`, the
    /// answer is want of memory, before the field is made.
    pub fn look_at<'t>(
        &mut self,
        alloc: Global,
        t: &'t Ty,
        todo: &mut Vec<Ty>,
    ) -> Result<PortForm<'t>, NoMemory>
        requires { HasNoCycle self.old }
        ensures form { IfOk result (HasForm self.old t.now todo.old.items todo.new.items) }
        ensures same { self.new ≡ self.old }
    {
        match &t.node {
            TyNode::Signal(dom, payload) => Ok(self.signal_form(alloc, dom, payload)?),
            TyNode::DataOf(at, args) => {
                let Some(fields) = product_fields(self.datas, at.number, args.len()) else {
                    return Ok(PortForm::Other);
                };
                push_fields(alloc, fields, args, todo, &mut self.parts)?;
                Ok(PortForm::Product)
            }
            _ => Ok(PortForm::Other),
        }
    }

    // What a signal is as a port.
    fn signal_form<'t>(
        &mut self,
        alloc: Global,
        dom: &Ty,
        payload: &'t Ty,
    ) -> Result<PortForm<'t>, NoMemory>
        requires { HasNoCycle self.old }
        ensures form { (todo : List TypeTree) → IfOk result (HasForm self.old (signal dom.now payload.now) todo todo) }
        ensures same { self.new ≡ self.old }
    {
        let TyNode::DomOf(at) = &dom.node else {
            return Ok(PortForm::Other);
        };
        if !self.representable(alloc, payload)? {
            return Ok(PortForm::Other);
        }
        Ok(PortForm::Single(*at, payload))
    }
}
