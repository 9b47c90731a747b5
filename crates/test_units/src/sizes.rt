//! How many rows a page has at most, where there are about as many as an answer may have.
use crate::calls::{begin, commit, page, write};
use crate::keys::store;
use occ_client::{Client, Core};
use occ_types::limits::MAX_ANSWER_ROWS;
use occ_types::{Fault, Key};
use std::alloc::Global;
use std::test::Fail;

/// How many rows pages are asked for.
const MOSTS: &[usize] = &[0, 1, 3, 1_023, 1_024, usize::MAX];

// Puts rows under the numbers from one on and below another.
fn put_numbers(
    client: &mut Client<Global>,
    core: &mut Core<Global>,
    first: u64,
    behind: u64,
) -> Result<(), Fault> {
    begin(client, core)?;
    for number in first..behind {
        if number % 256 == 255 {
            let _committed = commit(client, core)?;
            begin(client, core)?;
        }
        write(client, core, 0, Key::Num(number), Some(1))?;
    }
    let _committed = commit(client, core)?;
    Ok(())
}

// How many rows a page shows, and how many the pages behind it.
fn shown(
    client: &mut Client<Global>,
    core: &mut Core<Global>,
    last: bool,
    most: usize,
) -> Result<(usize, usize), Fault> {
    let first = page(client, core, last, 0, (None, None), most)?;
    let count = first.rows.len();
    Ok((count, behind(client, core, last, first.rest)?))
}

// How many rows the pages from a rest on show, each as long as it may be.
fn behind(
    client: &mut Client<Global>,
    core: &mut Core<Global>,
    last: bool,
    rest: Option<Key<Global>>,
) -> Result<usize, Fault> {
    let mut count = 0usize;
    let mut rest = rest;
    for _ in 0..4 {
        let Some(key) = rest else {
            return Ok(count);
        };
        let ends = if last {
            (None, Some(&key))
        } else {
            (Some(&key), None)
        };
        let next = page(client, core, last, 0, ends, usize::MAX)?;
        count = count.saturating_add(next.rows.len());
        rest = next.rest;
    }
    Err(Fault::SetFull)
}

// Whether the pages of so many numbers show as many as they may, from the beginning on or from the end back, and those behind them the rest.
fn shows(
    client: &mut Client<Global>,
    core: &mut Core<Global>,
    count: usize,
) -> Result<bool, Fault> {
    for most in MOSTS {
        let size = count.min((*most).max(1).min(MAX_ANSWER_ROWS - 1));
        let due = (size, count.saturating_sub(size));
        for last in [false, true] {
            begin(client, core)?;
            let right = shown(client, core, last, *most)? == due;
            let _committed = commit(client, core)?;
            if !right {
                return Ok(false);
            }
        }
    }
    Ok(true)
}

// Whether that is so of one row less than an answer may have, of as many, and of one more.
fn all_show(client: &mut Client<Global>, core: &mut Core<Global>) -> Result<bool, Fault> {
    put_numbers(client, core, 0, 1_022)?;
    for count in 1_023..1_026u64 {
        put_numbers(client, core, count - 1, count)?;
        if !shows(client, core, count as usize)? {
            return Ok(false);
        }
    }
    Ok(true)
}

#[test]
fn pages_show_as_many_rows_as_they_may(rt: HostRuntime) -> Result<(), Fail> {
    let mut core = store(rt.alloc(), 1)?;
    let right = all_show(&mut Client::new(rt.alloc(), 1), &mut core)?;
    drop(core);
    assert!(rt; right);
    Ok(())
}
