//! Nets of single bits, made of statements.
ghost use Rattle.std.specs.Prelude.{◌≡◌, ◌++◌, [], map, IfOk, OnOk};
ghost use Rattle.blif_text.specs.BlifText.{all_inputs, all_nodes, all_outputs, first_rows};
ghost use Rattle.blif_text.specs.BlifText.{net_said, with_node};
ghost use Rattle.blif_read.specs.Nets.{bitnet_of, node_of};
ghost use Rattle.blif_read.specs.Shown.{all_said, statement_of};
ghost use Rattle.stimulus.specs.Texts.{texts};

use crate::statement::{Said, Statement, inputs_of, outputs_of};
use chw_base::{Name, NoMemory, Seq};
use std::alloc::Global;

/// What gives a name its bit.
#[derive(Debug, Drop)]
pub enum Node {
    /// A table of the bits that it reads. A row has `0`, `1` or `-` for each of them.
    Table {
        reads: Seq<Name>,
        drives: Name,
        rows: Seq<Name>,
    },
    /// A latch, which takes a bit at the rising edges of its clock.
    Latch {
        takes: Name,
        drives: Name,
        clock: Name,
        initial: bool,
    },
}

/// The names of inputs and outputs, and the nodes.
#[derive(Debug, Drop)]
pub struct Bitnet {
    pub inputs: Seq<Name>,
    pub outputs: Seq<Name>,
    pub nodes: Seq<Node>,
}

/// Appends copies of names.
fn put_names(alloc: Global, more: &[&[u8]], names: &mut Vec<Name>) -> Result<(), NoMemory>
    ensures { OnOk result (names.new.items ≡ names.old.items ++ texts more.now) }
{
    for name in more {
        names.push(Name::copy_of(alloc, name)?)?;
    }
    Ok(())
}

/// Copies of names.
fn copies(alloc: Global, names: &[&[u8]]) -> Result<Seq<Name>, NoMemory>
    ensures { IfOk result (λ c. c ≡ texts names.now) }
{
    let mut copies = Vec::new(alloc);
    put_names(alloc, names, &mut copies)?;
    Ok(Seq::from(copies))
}

/// The inputs of statements.
fn input_names(alloc: Global, all: &[Said]) -> Result<Seq<Name>, NoMemory>
    ensures { IfOk result (λ names. names ≡ all_inputs (all_said all.now)) }
{
    let mut names = Vec::new(alloc);
    for it in all {
        put_names(alloc, inputs_of(&it.says), &mut names)?;
    }
    Ok(Seq::from(names))
}

/// The outputs of statements.
fn output_names(alloc: Global, all: &[Said]) -> Result<Seq<Name>, NoMemory>
    ensures { IfOk result (λ names. names ≡ all_outputs (all_said all.now)) }
{
    let mut names = Vec::new(alloc);
    for it in all {
        put_names(alloc, outputs_of(&it.says), &mut names)?;
    }
    Ok(Seq::from(names))
}

/// The rows with which statements begin.
fn first_rows(alloc: Global, others: &[Said]) -> Result<Seq<Name>, NoMemory>
    ensures { IfOk result (λ rows. rows ≡ first_rows (all_said others.now)) }
{
    let mut rows = Vec::new(alloc);
    for it in others {
        let Statement::Row(marks) = &it.says else {
            return Ok(Seq::from(rows));
        };
        rows.push(Name::copy_of(alloc, marks)?)?;
    }
    Ok(Seq::from(rows))
}

/// A table with the rows behind it.
fn table_of(
    alloc: Global,
    reads: &[&[u8]],
    drives: &[u8],
    others: &[Said],
) -> Result<Node, NoMemory>
    ensures { IfOk result (λ node. node
        ≡ Node.Table (texts reads.now) drives.now (first_rows (all_said others.now))) }
{
    let drives = Name::copy_of(alloc, drives)?;
    let reads = copies(alloc, reads)?;
    let rows = first_rows(alloc, others)?;
    Ok(Node::Table {
        reads,
        drives,
        rows,
    })
}

/// A latch.
fn latch_of(
    alloc: Global,
    takes: &[u8],
    drives: &[u8],
    clock: &[u8],
    initial: bool,
) -> Result<Node, NoMemory>
    ensures { IfOk result (λ node. node ≡ Node.Latch takes.now drives.now clock.now initial) }
{
    let takes = Name::copy_of(alloc, takes)?;
    let drives = Name::copy_of(alloc, drives)?;
    let clock = Name::copy_of(alloc, clock)?;
    Ok(Node::Latch {
        takes,
        drives,
        clock,
        initial,
    })
}

/// Appends the node of a statement before others.
fn put_node(
    alloc: Global,
    says: &Statement,
    others: &[Said],
    nodes: &mut Vec<Node>,
) -> Result<(), NoMemory>
    ensures { OnOk result (map node_of nodes.new.items ≡ map node_of nodes.old.items
        ++ with_node (statement_of says.now) (first_rows (all_said others.now)) []) }
{
    match says {
        Statement::Table { reads, drives } => {
            nodes.push(table_of(alloc, reads.as_slice(), drives, others)?)?;
            Ok(())
        }
        Statement::Latch {
            takes,
            drives,
            clock,
            initial,
        } => {
            nodes.push(latch_of(alloc, takes, drives, clock, *initial)?)?;
            Ok(())
        }
        Statement::Model
        | Statement::Inputs(_)
        | Statement::Outputs(_)
        | Statement::Row(_)
        | Statement::End => Ok(()),
    }
}

/// The nodes of statements.
fn nodes_of(alloc: Global, all: &[Said]) -> Result<Seq<Node>, NoMemory>
    ensures { IfOk result (λ nodes. map node_of nodes ≡ all_nodes (all_said all.now)) }
{
    let mut nodes = Vec::new(alloc);
    for (place, it) in all.iter().enumerate() {
        put_node(alloc, &it.says, &all[place + 1..], &mut nodes)?;
    }
    Ok(Seq::from(nodes))
}

/// The net of statements.
pub fn net_of(alloc: Global, all: &[Said]) -> Result<Bitnet, NoMemory>
    ensures { IfOk result (λ b. bitnet_of b ≡ net_said (all_said all.now)) }
{
    let inputs = input_names(alloc, all)?;
    let outputs = output_names(alloc, all)?;
    let nodes = nodes_of(alloc, all)?;
    Ok(Bitnet {
        inputs,
        outputs,
        nodes,
    })
}
