//! The one call of a filed core that no store makes. What a store calls is in what `test_store` plays.
use crate::schemas::schema;
use occ_filed::FiledCore;
use occ_sets::{Answer, Op};
use occ_types::{Cell, Fault, Key, Row};
use std::alloc::Global;
use std::test::Fail;

// A put of a row and a question for it.
fn put_and_get(alloc: Global) -> Result<Vec<Op<Global>>, Fault> {
    let mut operations = Vec::new(alloc);
    operations.push(Op::Put {
        table: 0,
        key: Key::Num(1),
        row: Row::from_cell(Cell::Int(7)),
    })?;
    operations.push(Op::Get {
        table: 0,
        key: Key::Num(1),
    })?;
    Ok(operations)
}

// Whether the row is all that was answered.
fn is_row(answers: &Vec<Answer<Global>>) -> bool {
    match answers.as_slice() {
        [Answer::Found(Some(row))] => row.int(0) == Some(7),
        _ => false,
    }
}

// What session 1 does alone, as the first that commits. Whether it has the row.
fn runs_alone(alloc: Global, filed: &mut FiledCore<Global>) -> Result<bool, Fault> {
    let (tn, answers) = filed.run_alone(1, 1, put_and_get(alloc)?)?;
    Ok(tn == 1 && is_row(&answers))
}

// The same in an empty store.
fn runs_alone_in_a_new_one(alloc: Global) -> Result<bool, Fault> {
    let mut filed = FiledCore::open(alloc, schema(alloc)?, 2, 2)?;
    runs_alone(alloc, &mut filed)
}

#[test]
fn operations_run_alone_in_a_filed_core(rt: HostRuntime) -> Result<(), Fail> {
    assert!(rt; runs_alone_in_a_new_one(rt.alloc())?);
    Ok(())
}
