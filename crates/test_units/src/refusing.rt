//! What is asked for, refused and given back, by lists, texts and maps.

use std::alloc::{AllocError, Allocator, Global};
use std::collections::BTreeMap;
use std::test::Fail;
use test_tools::{Plan, Refusing};

// The sum of so many numbers in a list that is made number by number.
fn listed<A: Allocator>(alloc: A, count: u64) -> Result<u64, AllocError> {
    let mut list = Vec::new(alloc);
    for number in 0..count {
        list.push(number)?;
    }
    let mut sum = 0u64;
    for number in &list {
        sum = sum.wrapping_add(*number);
    }
    Ok(sum)
}

// How many entries a map with texts in it has.
fn mapped<A: Allocator + Copy>(alloc: A, count: u64) -> Result<usize, AllocError> {
    let mut names = BTreeMap::new(alloc);
    for number in 0..count {
        let name = format!(in alloc; "the {number}th of them")?;
        let _replaced = names.insert(number, name)?;
    }
    let _first = names.pop_first();
    Ok(names.len())
}

// What was asked for, what of that was refused, and the bytes that are out.
fn counts<A: Allocator>(lent: &Refusing<A>) -> (u64, u64, u64) {
    (lent.requests(), lent.refused(), lent.bytes_out())
}

// How many requests a list and a map make where none is refused, if both are right then.
fn asked(alloc: Global) -> Result<Option<u64>, AllocError> {
    let ample = Refusing::new(alloc, Plan::Nothing);
    let right = listed(&ample, 100)? == 4950 && mapped(&ample, 40)? == 39;
    let (requests, refused, out) = counts(&ample);
    if !right || refused != 0 || out != 0 {
        return Ok(None);
    }
    Ok(Some(requests))
}

// Whether a run ends where this request is refused, with nothing out, and the next run is served.
fn ends_at(alloc: Global, place: u64) -> bool {
    let lent = Refusing::new(alloc, Plan::Once(place));
    let ended = listed(&lent, 100).is_err() || mapped(&lent, 40).is_err();
    ended && lent.refused() == 1 && lent.bytes_out() == 0 && listed(&lent, 100) == Ok(4950)
}

#[test]
fn each_request_is_refused_once(rt: HostRuntime) -> Result<(), Fail> {
    let requests = asked(rt.alloc())?;
    assert!(rt; requests > Some(40));
    for place in 0..requests.unwrap_or(0) {
        assert!(rt; ends_at(rt.alloc(), place), "{place}");
    }
    Ok(())
}

// What is counted as a list with room for ten is made, grows, shrinks to one and is dropped.
fn held(alloc: Global) -> Result<[(u64, u64, u64); 4], AllocError> {
    let ample = Refusing::new(alloc, Plan::Nothing);
    let mut list = Vec::with_capacity(&ample, 10)?;
    list.push(7u64)?;
    let made = counts(&ample);
    list.reserve_exact(20)?;
    let grown = counts(&ample);
    list.shrink_to_fit();
    let shrunk = counts(&ample);
    drop(list);
    Ok([made, grown, shrunk, counts(&ample)])
}

#[test]
fn bytes_are_out_as_long_as_they_are_held(rt: HostRuntime) -> Result<(), Fail> {
    let held = held(rt.alloc())?;
    assert!(rt; held == [(1, 0, 80), (2, 0, 168), (3, 0, 8), (3, 0, 0)]);
    Ok(())
}

// Whether four more letters are refused, one after another, with the bytes of three requests out.
fn refuses_four<A: Allocator>(lent: &Refusing<Global>, letters: &mut Vec<u8, A>) -> bool {
    for refused in 1u64..5 {
        let counted = (refused.saturating_add(3), refused, 4);
        if letters.push(b'b').is_ok() || counts(lent) != counted {
            return false;
        }
    }
    true
}

// Whether all is refused from the third request on, and what was held goes on once requests are served again.
fn serves_again(alloc: Global) -> Result<bool, AllocError> {
    let lent = Refusing::new(alloc, Plan::From(3));
    let mut first = Vec::with_capacity(&lent, 1)?;
    let second = Vec::from_slice(&lent, b"ab")?;
    let third = String::from_str(&lent, "c")?;
    first.push(b'a')?;
    let refused = counts(&lent) == (3, 0, 4) && refuses_four(&lent, &mut first);
    lent.follow(Plan::Nothing);
    first.push(b'b')?;
    Ok(refused && first.as_slice() == second.as_slice() && third.as_str() == "c")
}

#[test]
fn all_are_refused_from_one_on(rt: HostRuntime) -> Result<(), Fail> {
    assert!(rt; serves_again(rt.alloc())?);
    Ok(())
}

fn is_served<A: Allocator>(lent: A) -> bool {
    Vec::<u8, _>::with_capacity(lent, 4).is_ok()
}

// Which of three requests are served where the second is to be refused from now on, and what is counted then.
fn served(alloc: Global) -> Result<([bool; 3], (u64, u64, u64)), AllocError> {
    let lent = Refusing::new(alloc, Plan::Nothing);
    let _sum = listed(&lent, 10)?;
    let before = lent.requests();
    lent.follow(Plan::Once(before.saturating_add(1)));
    let served = [is_served(&lent), is_served(&lent), is_served(&lent)];
    let (requests, refused, out) = counts(&lent);
    Ok((served, (requests.saturating_sub(before), refused, out)))
}

#[test]
fn a_plan_is_changed_on_the_way(rt: HostRuntime) -> Result<(), Fail> {
    let (served, counted) = served(rt.alloc())?;
    assert!(rt; served == [true, false, true]);
    assert!(rt; counted == (3, 1, 0));
    Ok(())
}
