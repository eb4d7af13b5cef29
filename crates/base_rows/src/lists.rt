//! Indices, numbers and lists.
use chw_base::{Index, Name, VarIx, WireId, law_of_index, narrow};
use chw_terms::GapBuffer;
use std::test::Fail;

fn there_and_back<I: Index + Drop>(number: u32) -> u32 {
    law_of_index::<I>();
    I::of(number).number()
}

#[test]
fn keep_numbers(rt: HostRuntime) {
    assert_eq!(rt; there_and_back::<VarIx>(0), 0);
    assert_eq!(rt; there_and_back::<WireId>(u32::MAX), u32::MAX);
    assert!(rt; matches!(narrow(4_294_967_295), Ok(u32::MAX)));
    assert!(rt; narrow(4_294_967_296).is_err());
}

#[test]
fn is_the_list_of_its_items(rt: HostRuntime) -> Result<(), Fail> {
    let name = Name::copy_of(rt.alloc(), b"clk")?;
    assert_eq!(rt; name.len(), 3);
    assert!(rt; !name.is_empty());
    assert_eq!(rt; name.as_slice(), b"clk".as_slice());
    assert_eq!(rt; name.into_vec().as_slice(), b"clk".as_slice());
    Ok(())
}

#[test]
fn items_are_put_in_at_a_gap(rt: HostRuntime) -> Result<(), Fail> {
    let alloc = rt.alloc();
    let mut list = GapBuffer::of(alloc, vec![in alloc; 1, 4, 7]?);
    list.insert_all(1, vec![in alloc; 2, 3]?)?;
    list.insert_all(4, vec![in alloc; 5, 6]?)?;
    list.push(8)?;
    assert_eq!(rt; list.len(), 8);
    assert!(rt; matches!(list.from_end(0), Some(8)));
    assert!(rt; matches!(list.from_end(7), Some(1)));
    assert!(rt; list.from_end(8).is_none());
    assert!(rt; matches!(list.pop(), Some(8)));
    list.insert_all(0, vec![in alloc; 0]?)?;
    list.truncate(7);
    let (first, second, third) = list.parts();
    assert_eq!(rt; first.len() + second.len() + third.len(), 7);
    assert!(rt; matches!(list.from_end(0), Some(6)));
    assert!(rt; matches!(list.from_end(6), Some(0)));
    Ok(())
}
