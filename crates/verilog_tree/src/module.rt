//! The modules of a text.
use crate::item::Item;
use crate::word::{Line, Word};
use chw_base::Seq;

/// A port of a module.
#[derive(Clone, Copy)]
pub enum Port<'t> {
    /// `input clk_D`: an input of no range, which is a clock or a reset.
    Signal(Word<'t>),
    /// `input [7:0] i`
    Input(Line<'t>),
    /// `output [7:0] o`
    Output(Line<'t>),
}

/// `module m (..); .. endmodule`
#[derive(Drop)]
pub struct Module<'t> {
    pub name: Word<'t>,
    pub first: Port<'t>,
    pub others: Seq<Port<'t>>,
    pub items: Seq<Item<'t>>,
}

/// A text: its last module, and those before it.
#[derive(Drop)]
pub struct Tree<'t> {
    pub earlier: Seq<Module<'t>>,
    pub last: Module<'t>,
}
