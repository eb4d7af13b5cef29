//! The lines of faults of names, of references and of types, and the words before a place.
ghost use Rattle.std.specs.Prelude.{◌≡◌, ◌++◌, IfOk};
ghost use Rattle.chw_cli.specs.Lines.{circle_line, fault_line, name_line, rule_words, stim_words, type_line, words_line};
ghost use Rattle.chw_check.specs.declared.fault.TypeFault.TheVariants as of_types;
ghost use Rattle.chw_resolve.specs.declared.fault.NameFault.TheVariants as fault;

use chw_base::{Name, NoMemory, Seq};
use chw_check::TypeFault;
use chw_limits::Limit;
use chw_resolve::NameFault;
use itoa::Buffer;
use std::alloc::Global;
use stimulus::StimCode;
use verilog_rules::VCode;

/// The line of a fault of names or references.
pub(crate) fn fault_line(alloc: Global, fault: &NameFault) -> Result<Vec<u8>, NoMemory>
    ensures { IfOk result (λ line. line.items ≡ fault_line fault.now) }
{
    match fault {
        NameFault::Limit(limit) => limit_line(alloc, limit),
        NameFault::Twice { name, at } => name_line(alloc, "chw: E04 duplicate ", name, *at),
        NameFault::Unknown { name, at } => name_line(alloc, "chw: E05 unknown ", name, *at),
        NameFault::DataCycle(names) => circle_line(alloc, "chw: E07 data cycle", names),
        NameFault::DefCycle(names) => circle_line(alloc, "chw: E10 cycle", names),
    }
}

/// The line of a limit that is passed.
fn limit_line(alloc: Global, limit: &Limit) -> Result<Vec<u8>, NoMemory>
    ensures { IfOk result (λ line. line.items ≡ fault_line (fault.Limit limit.now)) }
{
    let mut buffer = Buffer::new();
    let mut line = Vec::from_slice(alloc, "chw: E03 limit ".as_bytes())?;
    line.extend_from_slice(limit.which.word().as_bytes())?;
    line.push(b' ')?;
    line.extend_from_slice(buffer.format(limit.number).as_bytes())?;
    line.push(b'\n')?;
    Ok(line)
}

/// The line of a name and the place of its word: these words, the name, the place, and a line feed.
fn name_line(alloc: Global, text: &str, name: &Name, at: u32) -> Result<Vec<u8>, NoMemory>
    ensures { IfOk result (λ line. line.items ≡ name_line text.now name.now at) }
{
    let mut buffer = Buffer::new();
    let mut line = Vec::from_slice(alloc, text.as_bytes())?;
    line.extend_from_slice(name.as_slice())?;
    line.extend_from_slice(" at ".as_bytes())?;
    line.extend_from_slice(buffer.format(at).as_bytes())?;
    line.push(b'\n')?;
    Ok(line)
}

/// The line of a circle: these words, all of its names, and a line feed.
fn circle_line(alloc: Global, text: &str, names: &Seq<Name>) -> Result<Vec<u8>, NoMemory>
    ensures { IfOk result (λ line. line.items ≡ circle_line text.now names.now) }
{
    let mut line = Vec::from_slice(alloc, text.as_bytes())?;
    for name in names.as_slice() {
        line.push(b' ')?;
        line.extend_from_slice(name.as_slice())?;
    }
    line.push(b'\n')?;
    Ok(line)
}

/// The line of a fault of types.
pub(crate) fn type_line(alloc: Global, fault: &TypeFault) -> Result<Vec<u8>, NoMemory>
    ensures { IfOk result (λ line. line.items ≡ type_line fault.now) }
{
    match fault {
        TypeFault::Kind { name } => words_line(alloc, "chw: E06 kind in ", name),
        TypeFault::Typing { name } => words_line(alloc, "chw: E08 type in ", name),
        TypeFault::Missing { name, con } => missing_line(alloc, name, con),
        TypeFault::NoDefault { name } => words_line(alloc, "chw: E09 default in ", name),
        TypeFault::NotPorts { ty } => words_line(alloc, "chw: E11 top ", ty),
    }
}

/// The line of a constructor that a case lacks.
fn missing_line(alloc: Global, name: &Name, con: &Name) -> Result<Vec<u8>, NoMemory>
    ensures { IfOk result (λ line. line.items ≡ type_line (of_types.Missing name.now con.now)) }
{
    let mut line = Vec::from_slice(alloc, "chw: E09 missing ".as_bytes())?;
    line.extend_from_slice(con.as_slice())?;
    line.extend_from_slice(" in ".as_bytes())?;
    line.extend_from_slice(name.as_slice())?;
    line.push(b'\n')?;
    Ok(line)
}

/// The line of words and what they are about: these words, a name or a type, and a line feed.
fn words_line(alloc: Global, text: &str, shown: &Name) -> Result<Vec<u8>, NoMemory>
    ensures { IfOk result (λ line. line.items ≡ words_line text.now shown.now) }
{
    let mut line = Vec::from_slice(alloc, text.as_bytes())?;
    line.extend_from_slice(shown.as_slice())?;
    line.push(b'\n')?;
    Ok(line)
}

/// The words before the place at which a Verilog text breaks a rule.
pub(crate) fn rule_words(code: VCode) -> &'static str
    ensures { result.now ≡ rule_words code }
{
    match code {
        VCode::V01 => "chw: V01 at ",
        VCode::V02 => "chw: V02 at ",
        VCode::V03 => "chw: V03 at ",
        VCode::V04 => "chw: V04 at ",
        VCode::V05 => "chw: V05 at ",
        VCode::V06 => "chw: V06 at ",
    }
}

/// The words before the number of a line that a stimulus may not have.
pub(crate) fn stim_words(code: StimCode) -> &'static str
    ensures { result.now ≡ stim_words code }
{
    match code {
        StimCode::S01 => "chw: S01 line ",
        StimCode::S02 => "chw: S02 line ",
        StimCode::S03 => "chw: S03 line ",
        StimCode::S05 => "chw: S05 line ",
    }
}
