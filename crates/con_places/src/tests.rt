//! Tests of the table over the built-in data types and three more, of no constructor, one and three.
use crate::Constructors;
use chw_base::{ConId, Name, NoMemory, Seq};
use chw_types::{ConDecl, Data, Kind};
use std::alloc::Global;
use std::test::Fail;

// A data type whose constructors have these names, without parameters and fields.
fn data_type(alloc: Global, names: &[&str]) -> Result<Data, NoMemory> {
    let mut cons = Vec::new(alloc);
    for name in names {
        cons.push(ConDecl {
            name: Name::from(Vec::from_slice(alloc, name.as_bytes())?),
            fields: Seq::from(Vec::new(alloc)),
        })?;
    }
    Ok(Data {
        name: Name::from(Vec::new(alloc)),
        params: Seq::from(Vec::new(alloc)),
        kind: Kind::Val,
        cons: Seq::from(cons),
    })
}

fn data_types(alloc: Global) -> Result<Vec<Data>, NoMemory> {
    let rows: [&[&str]; 6] = [
        &["False", "True"],
        &["Nothing", "Just"],
        &["Pair"],
        &[],
        &["Only"],
        &["Red", "Green", "Blue"],
    ];
    let mut datas = Vec::new(alloc);
    for names in rows {
        datas.push(data_type(alloc, names)?)?;
    }
    Ok(datas)
}

#[test]
fn finds_each_constructor(rt: HostRuntime) -> Result<(), Fail> {
    let datas = data_types(rt.alloc())?;
    let table = Constructors::of(rt.alloc(), &datas)?;
    let rows = [
        (0, "False", 0, 0),
        (1, "True", 0, 1),
        (2, "Nothing", 1, 0),
        (3, "Just", 1, 1),
        (4, "Pair", 2, 0),
        (5, "Only", 4, 0),
        (6, "Red", 5, 0),
        (7, "Green", 5, 1),
        (8, "Blue", 5, 2),
    ];
    for (number, name, of, place) in rows {
        let con = table.at(ConId { number }).ok_or("none")?;
        assert_eq!(rt; con.decl.name.as_slice(), name.as_bytes());
        assert_eq!(rt; con.of.number, of);
        assert_eq!(rt; con.place, place);
        assert!(rt; (place as usize) < con.it.cons.len());
    }
    Ok(())
}

#[test]
fn finds_none_past_the_last(rt: HostRuntime) -> Result<(), Fail> {
    let datas = data_types(rt.alloc())?;
    let table = Constructors::of(rt.alloc(), &datas)?;
    for number in [9, 10, u32::MAX] {
        assert!(rt; table.at(ConId { number }).is_none());
    }
    Ok(())
}

#[test]
fn has_none_without_data_types(rt: HostRuntime) -> Result<(), Fail> {
    let table = Constructors::of(rt.alloc(), &[])?;
    assert!(rt; table.at(ConId { number: 0 }).is_none());
    Ok(())
}
