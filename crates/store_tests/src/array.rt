use array_store::ArrayStore;
use page_store::{PageStore, StoreRefusal, self_test};
use std::alloc::AllocError;
use std::test::Fail;

// The size of a store made of `words` words that are all 9.
fn size_of(rt: &HostRuntime, words: usize) -> Result<u32, AllocError> {
    let memory = vec![in rt.alloc(); 9u32; words]?;
    Ok(ArrayStore::new(memory).size())
}

#[test]
fn whole_groups_are_pages_and_at_most_4096(rt: HostRuntime) -> Result<(), Fail> {
    assert_eq!(rt; size_of(&rt, 0)?, 0);
    assert_eq!(rt; size_of(&rt, 64)?, 0);
    assert_eq!(rt; size_of(&rt, 65)?, 1);
    assert_eq!(rt; size_of(&rt, 129)?, 1);
    assert_eq!(rt; size_of(&rt, 65 * 4096 - 1)?, 4095);
    assert_eq!(rt; size_of(&rt, 65 * 4096)?, 4096);
    assert_eq!(rt; size_of(&rt, 65 * 5000 + 7)?, 4096);
    Ok(())
}

#[test]
fn making_clears_the_marks_and_nothing_else(rt: HostRuntime) -> Result<(), Fail> {
    let store = ArrayStore::new(vec![in rt.alloc(); 9u32; 200]?);
    assert_eq!(rt; store.size(), 3);
    assert_eq!(rt; store.free_count(), 3);
    let words = store.words();
    assert!(rt; words.len() == 200);
    assert_eq!(rt; (words[0], words[65], words[130]), (0, 0, 0));
    assert_eq!(rt; (words[1], words[64], words[66], words[194]), (9, 9, 9, 9));
    assert_eq!(rt; (words[195], words[199]), (9, 9));
    Ok(())
}

#[test]
fn words_past_the_last_page_are_left_alone(rt: HostRuntime) -> Result<(), Fail> {
    let mut store = ArrayStore::new(vec![in rt.alloc(); 9u32; 65 * 4097 + 1]?);
    for _ in 0..4096 {
        store.take()?;
    }
    assert_eq!(rt; store.take(), Err(StoreRefusal::NoFreePage));
    assert_eq!(rt; store.write(4095, &[7; 64]), Ok(()));
    assert_eq!(rt; store.give_back(4095), Ok(()));
    assert_eq!(rt; store.write(4096, &[7; 64]), Err(StoreRefusal::OutOfRange));
    let words = store.into_words();
    assert!(rt; words.len() == 65 * 4097 + 1);
    assert_eq!(rt;
        (words[65 * 4096], words[65 * 4096 + 1], words[65 * 4097]),
        (9, 9, 9)
    );
    Ok(())
}

#[test]
fn refusals_change_nothing(rt: HostRuntime) -> Result<(), Fail> {
    let mut store = ArrayStore::new(vec![in rt.alloc(); 9u32; 130]?);
    let mut words = [5; 64];
    assert_eq!(rt; store.read(0, &mut words), Err(StoreRefusal::NotHeld));
    assert_eq!(rt; store.read(2, &mut words), Err(StoreRefusal::OutOfRange));
    assert_eq!(rt; store.write(1, &words), Err(StoreRefusal::NotHeld));
    assert_eq!(rt; store.write(2, &words), Err(StoreRefusal::OutOfRange));
    assert_eq!(rt; store.give_back(1), Err(StoreRefusal::NotHeld));
    assert_eq!(rt; store.give_back(u32::MAX), Err(StoreRefusal::OutOfRange));
    assert_eq!(rt; (words[0], words[63]), (5, 5));
    assert_eq!(rt; store.free_count(), 2);
    assert_eq!(rt; (store.take(), store.take()), (Ok(0), Ok(1)));
    assert_eq!(rt; store.take(), Err(StoreRefusal::NoFreePage));
    assert_eq!(rt; store.free_count(), 0);
    Ok(())
}

#[test]
fn refusals_have_their_numbers(rt: HostRuntime) {
    assert_eq!(rt; StoreRefusal::OutOfRange.number(), 41);
    assert_eq!(rt; StoreRefusal::NotHeld.number(), 42);
    assert_eq!(rt; StoreRefusal::NoFreePage.number(), 43);
}

#[test]
fn a_page_taken_again_is_zero(rt: HostRuntime) -> Result<(), Fail> {
    let mut store = ArrayStore::new(vec![in rt.alloc(); 9u32; 195]?);
    assert_eq!(rt;
        (store.take(), store.take(), store.take()),
        (Ok(0), Ok(1), Ok(2))
    );
    assert_eq!(rt; store.write(1, &[7; 64]), Ok(()));
    assert_eq!(rt; (store.give_back(2), store.give_back(1)), (Ok(()), Ok(())));
    assert_eq!(rt; store.free_count(), 2);
    // The page given back last comes first.
    assert_eq!(rt; (store.take(), store.take()), (Ok(1), Ok(2)));
    let mut words = [5; 64];
    assert_eq!(rt; store.read(1, &mut words), Ok(()));
    assert_eq!(rt; (words[0], words[63]), (0, 0));
    Ok(())
}

#[test]
fn the_self_test_leaves_no_trace(rt: HostRuntime) -> Result<(), Fail> {
    let mut store = ArrayStore::new(vec![in rt.alloc(); 9u32; 65]?);
    let mut words = [5; 64];
    assert_eq!(rt; self_test(&mut store, &mut words), Ok(0));
    assert_eq!(rt; (store.free_count(), words[0], words[63]), (1, 5, 5));
    assert_eq!(rt; store.take(), Ok(0));
    assert_eq!(rt;
        self_test(&mut store, &mut words),
        Err(StoreRefusal::NoFreePage)
    );
    Ok(())
}
