//! People: structs of an id, a name and a list of tags.

use crate::picked::picked;
use crate::printing::{print_elements, print_name, print_number};
use std::alloc::Global;
use std::test::Fail;
use vortex_select::build::{lists, numbers, structs, texts};
use vortex_select::{Array, ReadLayout, StructArray, row_at};

/// The tags of four people; the second has none.
fn tags(alloc: Global) -> Result<Array, Fail> {
    let tags = texts(alloc, &["new", "old", "big", "new"])?;
    Ok(lists(alloc, &[0, 1, 1, 3, 4], tags)?)
}

/// Four people.
fn people(alloc: Global) -> Result<Array, Fail> {
    let ids = numbers(alloc, &[7_u64, 8, 9, 10])?;
    let names = texts(alloc, &["Ann", "Bo", "Cy", "Dee"])?;
    let fields = vec![in alloc; ("id", ids), ("name", names), ("tags", tags(alloc)?)]?;
    Ok(structs(alloc, fields)?)
}

/// The fields of row `i`.
fn print_person(
    rt: &impl Print,
    alloc: Global,
    people: &StructArray,
    i: usize,
) -> Result<(), Fail> {
    let [ids, names, tags] = people.fields().as_slice() else {
        return Err("another number of fields".into());
    };
    if i >= ids.len() || i >= names.len() || i >= tags.len() {
        return Err("past the last row".into());
    }
    if ids.dtype().int_type().is_none() {
        return Err("no numbers".into());
    }
    print_number(rt, ids.number_at(i))?;
    print_name(rt, &row_at(alloc, names, i)?)?;
    print_elements(rt, &row_at(alloc, tags, i)?)
}

/// The people that are picked, a line each.
pub(crate) fn print_people(rt: &impl Print, alloc: Global) -> Result<(), Fail> {
    let answer = picked(alloc, &people(alloc)?)?;
    let Some(people) = answer.as_struct() else {
        return Err("no structs".into());
    };
    for i in 0..answer.len() {
        print!(rt; "person:")?;
        if answer.is_valid_at(i) {
            print_person(rt, alloc, people, i)?;
        }
        println!(rt; "")?;
    }
    Ok(())
}
