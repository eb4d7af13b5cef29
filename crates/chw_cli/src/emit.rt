//! The command `emit`: the text of a description as Verilog, or of its single bits as BLIF.
ghost use Rattle.std.specs.Prelude.{◌≡◌, Ok, IfOk, IfErr};
ghost use Rattle.chw_cli.specs.Answer.{CompileAnswer, EmitAnswer};
ghost use Rattle.chw_cli.specs.Descriptions.{HasProgram};
ghost use Rattle.chw_cli.specs.Refusals.{RefusesEmit, RefusesNet};
ghost use Rattle.chw_terms.specs.Tidy.{IsTidy};
ghost use Rattle.chw_typing.specs.Programs.{IsTyped};
ghost use Rattle.chw_words.specs.declared.command.EmitForm.TheVariants.{Blif, Shared, Verilog};

use crate::compile::compiled_of;
use crate::describe::Description;
use crate::refusal::Refusal;
use answers::compiled::laws::{shared_net_means, single_bits_mean};
use bit_blast::blast;
use bit_laws::laws::one_bit_value;
use blif_text::laws::{blasted_bits_are_right, one_bitnet, printed_bits_are_read};
use blif_text::print;
use chw_terms::Program;
use chw_words::EmitForm;
use net_share::share;
use normal_forms::laws::normal_is_first_order;
use std::alloc::Global;
use verilog_read::readable_text;
use verilog_text::laws::one_net;

/// The text of a description in this form, by so many steps of rewriting at most, or why
/// there is none.
pub(crate) fn emitted(
    alloc: Global,
    description: &Description,
    budget: u32,
    form: EmitForm,
) -> Result<Vec<u8>, Refusal>
    requires { HasProgram description.now.tree description.now.checked }
    ensures emitted { IfOk result
        (λ bytes. EmitAnswer description.now.tree budget form (Ok bytes.items)) }
    ensures refused { IfErr result (RefusesEmit description.now.tree budget form) }
{
    let program = description.checked.program();
    match form {
        EmitForm::Verilog => text_of(alloc, program, budget),
        EmitForm::Shared => shared_text_of(alloc, program, budget),
        EmitForm::Blif => bits_text_of(alloc, program, budget),
    }
}

// The Verilog text of the net that a program is compiled to.
fn text_of(alloc: Global, program: &Program, budget: u32) -> Result<Vec<u8>, Refusal>
    requires tidy { IsTidy program.now }
    requires typed { IsTyped program.now }
    ensures emitted { IfOk result
        (λ bytes. CompileAnswer program.now budget Verilog (Ok bytes.items)) }
    ensures refused { IfErr result (RefusesNet program.now budget Verilog) }
{
    normal_is_first_order();
    one_net();
    let made = compiled_of(alloc, program, budget)?;
    Ok(readable_text(alloc, &made.net)?)
}

// The Verilog text of the shared net of that net, which is one module.
fn shared_text_of(alloc: Global, program: &Program, budget: u32) -> Result<Vec<u8>, Refusal>
    requires tidy { IsTidy program.now }
    requires typed { IsTyped program.now }
    ensures emitted { IfOk result
        (λ bytes. CompileAnswer program.now budget Shared (Ok bytes.items)) }
    ensures refused { IfErr result (RefusesNet program.now budget Shared) }
{
    normal_is_first_order();
    one_net();
    shared_net_means();
    let whole = compiled_of(alloc, program, budget)?;
    let net = share(alloc, &whole.flat, &whole.order)?;
    Ok(readable_text(alloc, &net)?)
}

// The BLIF text of the single bits of that net.
fn bits_text_of(alloc: Global, program: &Program, budget: u32) -> Result<Vec<u8>, Refusal>
    requires tidy { IsTidy program.now }
    requires typed { IsTyped program.now }
    ensures emitted { IfOk result
        (λ bytes. CompileAnswer program.now budget Blif (Ok bytes.items)) }
    ensures refused { IfErr result (RefusesNet program.now budget Blif) }
{
    normal_is_first_order();
    single_bits_mean();
    one_bit_value();
    one_bitnet();
    blasted_bits_are_right();
    printed_bits_are_read();
    let compiled = compiled_of(alloc, program, budget)?;
    let nodes = blast(alloc, &compiled.flat)?;
    let text = print(alloc, &compiled.flat, nodes.as_slice())?;
    Ok(text.into_vec())
}
