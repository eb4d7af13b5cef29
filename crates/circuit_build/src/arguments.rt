//! The arguments of primitives on signals, as they are read.
ghost use Rattle.std.specs.Prelude.{◌≡◌, ℕ, List};
ghost use Rattle.chw_types.specs.declared.declarations.Data.{Data};
ghost use Rattle.net_ready.specs.Ready.{BlockRamReady, PureReady, RegisterReady, SynchronizerReady};
ghost use Rattle.circuit_build.specs.Arguments.{steady_args, delay_args, memory_args};
ghost use Rattle.circuit_build.specs.Arguments.{crossing_args, lifting_args};
ghost use Rattle.circuit_build.specs.Shapes.{IsLifting};

use chw_terms::{Arg, Term};
use chw_types::Ty;

/// The arguments of a constant as a signal.
#[derive(Clone, Copy)]
pub(crate) struct Steady<'t> {
    pub(crate) domain: &'t Ty,
    pub(crate) payload: &'t Ty,
    pub(crate) constant: &'t Term,
}

pub(crate) fn of_constant<'t>(args: &'t [Arg]) -> Steady<'t>
    requires { (datas : List Data) × (widths : List ℕ) × PureReady datas widths args.now }
    ensures { args.now ≡ steady_args result }
{
    match args {
        [
            Arg::OfType(domain),
            Arg::OfType(payload),
            Arg::OfTerm(constant),
        ] => Steady {
            domain,
            payload,
            constant,
        },
        _ => unreachable!(),
    }
}

/// The arguments of a register.
#[derive(Clone, Copy)]
pub(crate) struct Delay<'t> {
    pub(crate) domain: &'t Ty,
    pub(crate) payload: &'t Ty,
    pub(crate) first: &'t Term,
    pub(crate) signal: &'t Term,
}

pub(crate) fn of_delay<'t>(args: &'t [Arg]) -> Delay<'t>
    requires { (datas : List Data) × (widths : List ℕ) × RegisterReady datas widths args.now }
    ensures { args.now ≡ delay_args result }
{
    match args {
        [
            Arg::OfType(domain),
            Arg::OfType(payload),
            Arg::OfTerm(first),
            Arg::OfTerm(signal),
        ] => Delay {
            domain,
            payload,
            first,
            signal,
        },
        _ => unreachable!(),
    }
}

/// The arguments of a block RAM.
#[derive(Clone, Copy)]
pub(crate) struct Memory<'t> {
    pub(crate) domain: &'t Ty,
    pub(crate) last: &'t Ty,
    pub(crate) bits: &'t Ty,
    pub(crate) payload: &'t Ty,
    pub(crate) words: &'t Term,
    pub(crate) read: &'t Term,
    pub(crate) write: &'t Term,
}

pub(crate) fn of_memory<'t>(args: &'t [Arg]) -> Memory<'t>
    requires { (datas : List Data) × (widths : List ℕ) × BlockRamReady datas widths args.now }
    ensures { args.now ≡ memory_args result }
{
    match args {
        [
            Arg::OfType(domain),
            Arg::OfType(last),
            Arg::OfType(bits),
            Arg::OfType(payload),
            Arg::OfTerm(words),
            Arg::OfTerm(read),
            Arg::OfTerm(write),
        ] => Memory {
            domain,
            last,
            bits,
            payload,
            words,
            read,
            write,
        },
        _ => unreachable!(),
    }
}

/// The arguments of a primitive that lifts: three types, a function and a signal.
#[derive(Clone, Copy)]
pub(crate) struct Lifting<'t> {
    pub(crate) domain: &'t Ty,
    pub(crate) from: &'t Ty,
    pub(crate) to: &'t Ty,
    pub(crate) function: &'t Term,
    pub(crate) signal: &'t Term,
}

pub(crate) fn of_lifting<'t>(args: &'t [Arg]) -> Lifting<'t>
    requires { IsLifting args.now }
    ensures { args.now ≡ lifting_args result }
{
    match args {
        [
            Arg::OfType(domain),
            Arg::OfType(from),
            Arg::OfType(to),
            Arg::OfTerm(function),
            Arg::OfTerm(signal),
        ] => Lifting {
            domain,
            from,
            to,
            function,
            signal,
        },
        _ => unreachable!(),
    }
}

/// The arguments of a synchroniser.
#[derive(Clone, Copy)]
pub(crate) struct Crossing<'t> {
    pub(crate) from: &'t Ty,
    pub(crate) to: &'t Ty,
    pub(crate) payload: &'t Ty,
    pub(crate) signal: &'t Term,
}

pub(crate) fn of_crossing<'t>(args: &'t [Arg]) -> Crossing<'t>
    requires { SynchronizerReady args.now }
    ensures { args.now ≡ crossing_args result }
{
    match args {
        [
            Arg::OfType(from),
            Arg::OfType(to),
            Arg::OfType(payload),
            Arg::OfTerm(signal),
        ] => Crossing {
            from,
            to,
            payload,
            signal,
        },
        _ => unreachable!(),
    }
}
