//! A program that is typed, or its first fault.
ghost use Rattle.std.specs.Prelude.{◌≡◌, IfOk, OnOk};
ghost use Rattle.chw_base.specs.Outcome.{IfFault};
ghost use Rattle.chw_check.specs.Bodies.{AllHaveTheirTypes};
ghost use Rattle.chw_check.specs.Faults.{IsTypeFault};
ghost use Rattle.chw_check.specs.Fits.{AllDeclarationsFit};
ghost use Rattle.chw_check.specs.Incomplete.{AllKeep};
ghost use Rattle.chw_check.specs.Tops.{TopIsOfPorts};
ghost use Rattle.chw_terms.specs.Tidy.{IsTidy};
ghost use Rattle.chw_typing.specs.Programs.{IsTyped};
ghost use Rattle.term_frames.specs.Signatures.{IsSignature};

use crate::bodies::first_untyped;
use crate::cases::{Lacks, first_incomplete};
use crate::fault::TypeFault;
use crate::kinds::{Unkinded, first_unkinded};
use crate::names::{con_name, data_name, def_name};
use crate::ports::leads_to_port;
use chw_base::{Name, NoMemory, Or};
use chw_terms::Program;
use chw_typing::named_laws::data_types_in_order;
use con_places::Constructors;
use std::alloc::Global;
use std::marker::Model;
use term_types::Signature;
use type_ports::type_text;

/// A program that is tidy and typed. Contracts see the program.
#[derive(Drop)]
pub struct Checked {
    program: Program,
}

impl Model for Checked {
    ghost use Rattle.chw_terms.specs.Tidy.{IsTidy};
    ghost use Rattle.chw_terms.specs.contracts.program.Program as program_type;
    ghost use Rattle.chw_terms.specs.declared.program.Program.{Program};
    ghost use Rattle.chw_typing.specs.Programs.{IsTyped};

    ghost Value = { Program };

    ghost coded = { program_type.the_row.coded };

    ghost view = { λ c. c.program };

    ghost invariant = { λ c. IsTidy c.program × IsTyped c.program };
}

impl Checked {
    /// The program.
    pub fn program(&self) -> &Program
        ensures program { result.now ≡ self.now }
        ensures tidy { IsTidy self.now }
        ensures typed { IsTyped self.now }
    {
        &self.program
    }
}

/// The program, where it is typed; or its first fault, in this order: a written type has no kind that it may have there, a body hasn't its
/// declared type, a case leaves out a constructor, a case leaves out its default, the top isn't of ports. Each is looked for in the whole
/// program before the next.
pub fn check(alloc: Global, program: Program) -> Result<Checked, Or<TypeFault>>
    requires { IsTidy program }
    ensures program { IfOk result (λ checked. checked ≡ program) }
    ensures typed { IfOk result (λ _. IsTyped program) }
    ensures fault { IfFault result (IsTypeFault program) }
{
    check_all(alloc, &program)?;
    Ok(Checked { program })
}

/// Checks that a program is typed.
fn check_all(alloc: Global, program: &Program) -> Result<(), Or<TypeFault>>
    requires { IsTidy program.now }
    ensures ok { OnOk result (IsTyped program.now) }
    ensures fault { IfFault result (IsTypeFault program.now) }
{
    check_kinds(alloc, program)?;
    let signature = Signature::of(alloc, program)?;
    check_types(alloc, program, &signature)?;
    check_cases(alloc, program, &signature.constructors)?;
    check_top(alloc, program)
}

/// Checks that each written type has a kind that it may have there.
fn check_kinds(alloc: Global, program: &Program) -> Result<(), Or<TypeFault>>
    ensures ok { OnOk result (AllDeclarationsFit program.now) }
    ensures fault { IfFault result (IsTypeFault program.now) }
{
    match first_unkinded(alloc, program)? {
        None => Ok(()),
        Some(Unkinded::OfData(at)) => {
            let name = data_name(alloc, program.datas.as_slice(), at)?;
            Err(Or::Fault(TypeFault::Kind { name }))
        }
        Some(Unkinded::OfDef(at)) => {
            let name = def_name(alloc, program.defs.as_slice(), at)?;
            Err(Or::Fault(TypeFault::Kind { name }))
        }
    }
}

/// Checks that each body has its declared type.
fn check_types(alloc: Global, program: &Program, signature: &Signature) -> Result<(), Or<TypeFault>>
    requires tidy { IsTidy program.now }
    requires table { IsSignature program.now signature.now }
    requires fit { AllDeclarationsFit program.now }
    ensures ok { OnOk result (AllHaveTheirTypes program.now) }
    ensures fault { IfFault result (IsTypeFault program.now) }
{
    match first_untyped(alloc, program, signature)? {
        None => Ok(()),
        Some(it) => {
            let name = Name::copy_of(alloc, it.name.as_slice())?;
            Err(Or::Fault(TypeFault::Typing { name }))
        }
    }
}

/// Checks that no case leaves anything out.
fn check_cases(
    alloc: Global,
    program: &Program,
    constructors: &Constructors,
) -> Result<(), Or<TypeFault>>
    requires table { constructors.now ≡ program.now.datas }
    requires fit { AllDeclarationsFit program.now }
    requires typed { AllHaveTheirTypes program.now }
    ensures ok { OnOk result (AllKeep program.now) }
    ensures fault { IfFault result (IsTypeFault program.now) }
{
    let Some(found) = first_incomplete(alloc, program, constructors)? else {
        return Ok(());
    };
    let name = def_name(alloc, program.defs.as_slice(), found.def)?;
    match found.lacks {
        Lacks::Constructor(at) => {
            let con = con_name(alloc, constructors, at)?;
            Err(Or::Fault(TypeFault::Missing { name, con }))
        }
        Lacks::Default => Err(Or::Fault(TypeFault::NoDefault { name })),
    }
}

/// Checks that the top leads from ports to a port, and has a name for each of their leaves.
fn check_top(alloc: Global, program: &Program) -> Result<(), Or<TypeFault>>
    requires tidy { IsTidy program.now }
    requires fit { AllDeclarationsFit program.now }
    requires typed { AllHaveTheirTypes program.now }
    requires complete { AllKeep program.now }
    ensures ok { OnOk result (TopIsOfPorts program.now) }
    ensures fault { IfFault result (IsTypeFault program.now) }
{
    data_types_in_order();
    let datas = program.datas.as_slice();
    let top = &program.top;
    let ty = &program.defs.as_slice()[top.def.number as usize].ty;
    if leads_to_port(alloc, datas, ty, top.inputs.len(), top.outputs.len())? {
        return Ok(());
    }
    let ty = type_text(alloc, ty, datas, program.domains.as_slice())?;
    Err(Or::Fault(TypeFault::NotPorts { ty }))
}
