//! The text, binding by binding.
ghost use Rattle.std.specs.Prelude.{◌≡◌, ◌++◌, flat_map, IfOk, OnOk};
ghost use Rattle.std.specs.List.{range_with_len};
ghost use Rattle.make_text.specs.MakeText.{back, delay_text, element_text, first_text, front, make_text, product_text, sum_text};

use crate::pieces::{put, put_number};
use chw_base::NoMemory;
use std::alloc::Global;

// Appends all before the first tap.
fn put_front(out: &mut Vec<u8>) -> Result<(), NoMemory>
    ensures { OnOk result (out.new.items ≡ out.old.items ++ front) }
{
    put(out, b"domain A ;\ndomain B ;\n")?;
    put(
        out,
        b"def plus : Signal A ( Unsigned 16 ) -> Signal A ( Unsigned 16 ) -> Signal A ( Unsigned 16 ) = ",
    )?;
    put(
        out,
        b"\\ ( a : Signal A ( Unsigned 16 ) ) . \\ ( b : Signal A ( Unsigned 16 ) ) . ",
    )?;
    put(out, b"ap @ A @ ( Unsigned 16 ) @ ( Unsigned 16 ) ")?;
    put(
        out,
        b"( fmap @ A @ ( Unsigned 16 ) @ ( Unsigned 16 -> Unsigned 16 ) ( addU @ 16 ) a ) b ;\n",
    )?;
    put(
        out,
        b"def main : Signal A ( Unsigned 16 ) -> Signal B ( Unsigned 16 ) = ",
    )?;
    put(out, b"\\ ( x : Signal A ( Unsigned 16 ) ) . letrec { ")?;
    Ok(())
}

// Appends the binding of the first tap.
fn put_first(out: &mut Vec<u8>) -> Result<(), NoMemory>
    ensures { OnOk result (out.new.items ≡ out.old.items ++ first_text) }
{
    put(out, b"t")?;
    put_number(out, 0, b" : Signal A ( Unsigned 16 ) = x ; ")?;
    Ok(())
}

// Appends the binding of a tap that delays the one of this number.
fn put_delay(out: &mut Vec<u8>, k: u32) -> Result<(), NoMemory>
    ensures { OnOk result (out.new.items ≡ out.old.items ++ delay_text k) }
{
    put(out, b"t")?;
    put_number(
        out,
        u64::from(k) + 1,
        b" : Signal A ( Unsigned 16 ) = register @ A @ ( Unsigned 16 ) 0u16 t",
    )?;
    put_number(out, u64::from(k), b" ; ")?;
    Ok(())
}

// Appends the binding of the product of a tap.
fn put_product(out: &mut Vec<u8>, k: u32) -> Result<(), NoMemory>
    ensures { OnOk result (out.new.items ≡ out.old.items ++ product_text k) }
{
    put(out, b"s")?;
    put_number(
        out,
        u64::from(k),
        b" : Signal A ( Unsigned 16 ) = fmap @ A @ ( Unsigned 16 ) @ ( Unsigned 16 ) ",
    )?;
    put(out, b"( \\ ( v : Unsigned 16 ) . mulU @ 16 v ")?;
    put_number(out, u64::from(k) + 1, b"u16 ) t")?;
    put_number(out, u64::from(k), b" ; ")?;
    Ok(())
}

// Appends the name of the product after this one, behind others in a list.
fn put_element(out: &mut Vec<u8>, k: u32) -> Result<(), NoMemory>
    ensures { OnOk result (out.new.items ≡ out.old.items ++ element_text k) }
{
    put(out, b", s")?;
    put_number(out, u64::from(k) + 1, b" ")?;
    Ok(())
}

// Appends the bindings of so many taps that delay others.
fn put_delays(out: &mut Vec<u8>, count: u32) -> Result<(), NoMemory>
    ensures { OnOk result (out.new.items ≡ out.old.items ++ flat_map delay_text (range_with_len 0 count)) }
{
    for k in 0..count {
        put_delay(out, k)?;
    }
    Ok(())
}

// Appends the bindings of so many products.
fn put_products(out: &mut Vec<u8>, count: u32) -> Result<(), NoMemory>
    ensures { OnOk result (out.new.items ≡ out.old.items ++ flat_map product_text (range_with_len 0 count)) }
{
    for k in 0..count {
        put_product(out, k)?;
    }
    Ok(())
}

// Appends the names of so many products behind the first.
fn put_elements(out: &mut Vec<u8>, count: u32) -> Result<(), NoMemory>
    ensures { OnOk result (out.new.items ≡ out.old.items ++ flat_map element_text (range_with_len 0 count)) }
{
    for k in 0..count {
        put_element(out, k)?;
    }
    Ok(())
}

// Appends the binding of the sum of so many products.
fn put_sum(out: &mut Vec<u8>, taps: u32) -> Result<(), NoMemory>
    ensures { OnOk result (out.new.items ≡ out.old.items ++ sum_text taps) }
{
    put(out, b"y : Signal A ( Unsigned 16 ) = vfoldlC @ ")?;
    put_number(
        out,
        u64::from(taps),
        b" @ ( Signal A ( Unsigned 16 ) ) @ ( Signal A ( Unsigned 16 ) ) plus ",
    )?;
    put(
        out,
        b"( pure @ A @ ( Unsigned 16 ) 0u16 ) vec @ ( Signal A ( Unsigned 16 ) ) [ s",
    )?;
    put_number(out, 0, b" ")?;
    put_elements(out, taps.saturating_sub(1))?;
    put(out, b"] ; ")?;
    Ok(())
}

// Appends the register in domain `B`, and the top.
fn put_back(out: &mut Vec<u8>) -> Result<(), NoMemory>
    ensures { OnOk result (out.new.items ≡ out.old.items ++ back) }
{
    put(
        out,
        b"z : Signal B ( Unsigned 16 ) = register @ B @ ( Unsigned 16 ) 0u16 ",
    )?;
    put(
        out,
        b"( unsafeSynchronizer @ A @ B @ ( Unsigned 16 ) y ) ; } in z ;\n",
    )?;
    put(out, b"top main ( x ) ( o ) ;\n")?;
    Ok(())
}

/// The description of a filter with so many taps, as its canonical text: an input of 16 bits in domain `A` and its delays by registers,
/// the sum of their products with 1, 2, 3 and so on, and a register in domain `B` that takes over this sum.
///
/// `NoMemory` comes where the text can't grow so far. The time is linear in the length of the text.
pub fn make_text(alloc: Global, taps: u32) -> Result<Vec<u8>, NoMemory>
    ensures { IfOk result (λ text. text.items ≡ make_text taps) }
{
    let mut text = Vec::new(alloc);
    put_front(&mut text)?;
    put_first(&mut text)?;
    put_delays(&mut text, taps.saturating_sub(1))?;
    put_products(&mut text, taps)?;
    put_sum(&mut text, taps)?;
    put_back(&mut text)?;
    Ok(text)
}
