//! The text of the stimulus.
ghost use Rattle.std.specs.Prelude.{◌≡◌, ◌++◌, ◌<◌, ◌≤◌, IfOk, OnOk};
ghost use Rattle.chw_bits.specs.Hex.{hex_digits};
ghost use Rattle.answers.specs.MakeAnswer.Events.{domains_at, event_line, input_at, make_stimulus};

use crate::make_answer::pieces::put;
use chw_base::{NoMemory, Or};
use chw_bits::Bits;
use std::alloc::Global;

// The bits of the input at the event of this number.
fn input_at(alloc: Global, number: u32) -> Result<Bits, NoMemory>
    requires { number < 65536 }
    ensures { IfOk result (λ bits. bits ≡ input_at number) }
{
    match Bits::of_number(alloc, 16, u128::from(number)) {
        Ok(bits) => Ok(bits),
        Err(Or::Memory) => Err(NoMemory),
        Err(Or::Fault(_)) => unreachable!(),
    }
}

// Appends the digits of the input at the event of this number.
fn put_input(alloc: Global, out: &mut Vec<u8>, number: u32) -> Result<(), NoMemory>
    requires { number < 65536 }
    ensures { OnOk result (out.new.items ≡ out.old.items ++ hex_digits (input_at number)) }
{
    let bits = input_at(alloc, number)?;
    let put = bits.put_hex(out);
    drop(bits);
    put
}

// Appends the domains that tick in the event of this number.
fn put_domains(out: &mut Vec<u8>, number: u32) -> Result<(), NoMemory>
    ensures { OnOk result (out.new.items ≡ out.old.items ++ domains_at number) }
{
    if number % 2 == 1 {
        put(out, b"A B")
    } else {
        put(out, b"A")
    }
}

// Appends the line of the event of this number.
fn put_event(alloc: Global, out: &mut Vec<u8>, number: u32) -> Result<(), NoMemory>
    requires { number < 65536 }
    ensures { OnOk result (out.new.items ≡ out.old.items ++ event_line number) }
{
    put_domains(out, number)?;
    put(out, b": x=")?;
    put_input(alloc, out, number)?;
    put(out, b"\n")?;
    Ok(())
}

/// The stimulus of a filter with so many taps: four times as many events, each of which ticks domain `A` and each of odd number `B` too,
/// with the number of the event as the input `x`.
///
/// `NoMemory` comes where the text can't grow so far. The time is linear in the length of the text.
pub fn make_stimulus(alloc: Global, taps: u32) -> Result<Vec<u8>, NoMemory>
    requires { taps ≤ 64 }
    ensures { IfOk result (λ text. text.items ≡ make_stimulus taps) }
{
    let mut text = Vec::new(alloc);
    for number in 0..4 * taps {
        put_event(alloc, &mut text, number)?;
    }
    Ok(text)
}
