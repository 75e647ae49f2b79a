//! Keeps the feeders of a pick-and-place machine on pages, and prints what it did.
#![tactic(auto)]

mod bank;
mod feeder;

use array_store::ArrayStore;
use bank::{find, list, plug_in, unplug};
use feeder::Feeder;
use page_cache::Cache;
use page_store::{PageStore, self_test};
use reels::Reel;
use std::io;

// Written out, since a call in a constant's value is not supported.
const FEEDERS: [Feeder; 7] = [
    Feeder {
        reel: Reel {
            slot: 11,
            low: 100,
            high: 100,
        },
        parts: 4980,
    },
    Feeder {
        reel: Reel {
            slot: 12,
            low: 220,
            high: 270,
        },
        parts: 1200,
    },
    Feeder {
        reel: Reel {
            slot: 13,
            low: 470,
            high: 470,
        },
        parts: 310,
    },
    Feeder {
        reel: Reel {
            slot: 14,
            low: 1000,
            high: 1000,
        },
        parts: 5000,
    },
    Feeder {
        reel: Reel {
            slot: 15,
            low: 4700,
            high: 5100,
        },
        parts: 77,
    },
    Feeder {
        reel: Reel {
            slot: 21,
            low: 10000,
            high: 10000,
        },
        parts: 2450,
    },
    Feeder {
        reel: Reel {
            slot: 22,
            low: 47000,
            high: 47000,
        },
        parts: 900,
    },
];

// Feeders are plugged in until no page is free, one is exchanged, and pages are named that are not there.
fn work<S: PageStore>(rt: &impl Print, store: &mut S) -> io::Result<()> {
    for feeder in FEEDERS.iter() {
        plug_in(rt, store, feeder)?;
    }
    unplug(rt, store, 2)?;
    unplug(rt, store, 2)?;
    unplug(rt, store, 6)?;
    plug_in(rt, store, &FEEDERS[6])
}

// The same work behind one cache more; what it changed is then below.
fn cached<S: PageStore>(rt: &impl Print, below: S) -> (S, io::Result<()>) {
    let mut cache = Cache::new(below);
    let worked = work(rt, &mut cache);
    (cache.end(), worked)
}

fn one_cache(rt: &impl Print, memory: Vec<u32>) -> io::Result<Vec<u32>> {
    let store = ArrayStore::new(memory);
    let size = store.size();
    println!(rt; "{size} pages in memory, behind a cache")?;
    let (mut store, worked) = cached(rt, store);
    worked?;
    println!(rt; "found in memory:")?;
    list(rt, &mut store)?;
    find(rt, &mut store, 240, 4800)?;
    find(rt, &mut store, 4800, 240)?;
    Ok(store.into_words())
}

// A pile of three: the words are those that one cache left.
fn pile(rt: &impl Print, memory: Vec<u32>) -> io::Result<Vec<u32>> {
    let (lower, worked) = cached(rt, Cache::new(ArrayStore::new(memory)));
    let store = lower.end();
    worked?;
    Ok(store.into_words())
}

fn check_store(rt: &impl Print, memory: Vec<u32>) -> io::Result<()> {
    let mut store = ArrayStore::new(memory);
    match self_test(&mut store, &mut [5; 64]) {
        Ok(page) => println!(rt; "self-test: page {page} keeps what is written"),
        Err(refusal) => println!(rt; "self-test: {refusal}"),
    }
}

fn main(rt: HostRuntime) -> io::Result<()> {
    // Room for six pages of 65 words, and ten words that make no page.
    let memory = vec![in rt.alloc(); 7u32; 400]?;
    let left = one_cache(&rt, memory)?;
    println!(rt; "the same behind two caches")?;
    let memory = vec![in rt.alloc(); 7u32; 400]?;
    let left_again = pile(&rt, memory)?;
    if left == left_again {
        println!(rt; "the memory is the same, word for word")?;
    }
    check_store(&rt, left)
}
