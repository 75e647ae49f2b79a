use crate::pile::tested_through_a_pile;
use array_store::ArrayStore;
use page_cache::Cache;
use page_store::{PageStore, StoreRefusal};
use std::alloc::AllocError;
use std::test::Fail;

fn memory_of(rt: &HostRuntime, pages: usize) -> Result<ArrayStore, AllocError> {
    let words = vec![in rt.alloc(); 9u32; pages.min(100) * 65]?;
    Ok(ArrayStore::new(words))
}

// Takes `count` pages and writes each with its number and 100.
fn fill<S: PageStore>(store: &mut S, count: u32) -> Result<(), StoreRefusal> {
    for _ in 0..count {
        let page = store.take()?;
        store.write(page, &[page.wrapping_add(100); 64])?;
    }
    Ok(())
}

// The first and the last word of a page.
fn ends_of<S: PageStore>(store: &mut S, page: u32) -> Result<(u32, u32), StoreRefusal> {
    let mut words = [5; 64];
    store.read(page, &mut words)?;
    Ok((words[0], words[63]))
}

// Fills five pages, one more than there are slots, and reads them all.
fn five<S: PageStore>(below: S) -> (S, Result<(u32, u32), StoreRefusal>) {
    let mut cache = Cache::new(below);
    let filled = fill(&mut cache, 5);
    let first = ends_of(&mut cache, 0);
    let store = cache.end();
    match filled {
        Ok(()) => (store, first),
        Err(refusal) => (store, Err(refusal)),
    }
}

#[test]
fn five_pages_go_through_four_slots(rt: HostRuntime) -> Result<(), Fail> {
    let (mut store, first) = five(memory_of(&rt, 5)?);
    assert_eq!(rt; first, Ok((100, 100)));
    assert_eq!(rt; ends_of(&mut store, 0), Ok((100, 100)));
    assert_eq!(rt; ends_of(&mut store, 1), Ok((101, 101)));
    assert_eq!(rt; ends_of(&mut store, 2), Ok((102, 102)));
    assert_eq!(rt; ends_of(&mut store, 3), Ok((103, 103)));
    assert_eq!(rt; ends_of(&mut store, 4), Ok((104, 104)));
    Ok(())
}

#[test]
fn a_pile_of_three_is_a_store(rt: HostRuntime) -> Result<(), Fail> {
    let (lower, first) = five(Cache::new(memory_of(&rt, 5)?));
    let mut store = lower.end();
    assert_eq!(rt; first, Ok((100, 100)));
    assert_eq!(rt; ends_of(&mut store, 0), Ok((100, 100)));
    assert_eq!(rt; ends_of(&mut store, 4), Ok((104, 104)));
    Ok(())
}

#[test]
fn a_self_test_through_a_pile_leaves_no_trace(rt: HostRuntime) -> Result<(), Fail> {
    let mut store = memory_of(&rt, 1)?;
    fill(&mut store, 1)?;
    let mut store = tested_through_a_pile(store);
    assert_eq!(rt; ends_of(&mut store, 0), Ok((100, 100)));
    let store = tested_through_a_pile(memory_of(&rt, 1)?);
    assert_eq!(rt; store.free_count(), 1);
    Ok(())
}

type Answer = Result<(), StoreRefusal>;

// A page is written, given back and taken again: what was kept of it must not come back.
fn reuse<S: PageStore>(below: S) -> (S, Answer, Result<u32, StoreRefusal>) {
    let mut cache = Cache::new(below);
    let filled = fill(&mut cache, 1);
    let given = cache.give_back(0);
    let taken = cache.take();
    let store = cache.end();
    match filled {
        Ok(()) => (store, given, taken),
        Err(refusal) => (store, given, Err(refusal)),
    }
}

#[test]
fn a_page_given_back_is_not_kept(rt: HostRuntime) -> Result<(), Fail> {
    let (mut store, given, taken) = reuse(memory_of(&rt, 1)?);
    assert_eq!(rt; given, Ok(()));
    assert_eq!(rt; taken, Ok(0));
    assert_eq!(rt; ends_of(&mut store, 0), Ok((0, 0)));
    Ok(())
}

// Every refusal, asked of a cache over a store of one page that is free, and then held.
fn refusals<S: PageStore>(below: S) -> (S, [Answer; 6], Result<u32, StoreRefusal>, u32) {
    let mut cache = Cache::new(below);
    let mut words = [5; 64];
    let read_free = cache.read(0, &mut words);
    let read_outside = cache.read(1, &mut words);
    let write_free = cache.write(0, &[7; 64]);
    let write_outside = cache.write(1, &[7; 64]);
    let give_free = cache.give_back(0);
    let give_outside = cache.give_back(1);
    let _ = cache.take();
    let full = cache.take();
    let answers = [
        read_free,
        read_outside,
        write_free,
        write_outside,
        give_free,
        give_outside,
    ];
    (cache.end(), answers, full, words[0])
}

#[test]
fn a_cache_refuses_as_the_store_below(rt: HostRuntime) -> Result<(), Fail> {
    let (store, answers, full, word) = refusals(memory_of(&rt, 1)?);
    let free = Err(StoreRefusal::NotHeld);
    let outside = Err(StoreRefusal::OutOfRange);
    assert_eq!(rt; answers, [free, outside, free, outside, free, outside]);
    assert_eq!(rt; full, Err(StoreRefusal::NoFreePage));
    assert_eq!(rt; word, 5);
    assert_eq!(rt; store.free_count(), 0);
    Ok(())
}
