//! Keeps the feeders of a pick-and-place machine in an index by the values on their reels, and says which have a value.
#![tactic(auto)]

mod answer;
mod bank;
mod log;

use answer::Answer;
use array_store::ArrayStore;
use bank::serve;
use log::Log;
use page_cache::Cache;
use page_store::PageStore;
use reels::Reel;
use std::alloc::Global;
use std::io;

// Values in ohms: reels of one value, reels of a mixed range, and one that is labelled the wrong way round. They are written
// out, since a call in a constant's value is not supported.
const REELS: [Reel; 31] = [
    Reel {
        slot: 1,
        low: 100,
        high: 100,
    },
    Reel {
        slot: 2,
        low: 120,
        high: 120,
    },
    Reel {
        slot: 3,
        low: 150,
        high: 180,
    },
    Reel {
        slot: 4,
        low: 220,
        high: 270,
    },
    Reel {
        slot: 5,
        low: 330,
        high: 330,
    },
    Reel {
        slot: 6,
        low: 390,
        high: 470,
    },
    Reel {
        slot: 7,
        low: 560,
        high: 560,
    },
    Reel {
        slot: 8,
        low: 680,
        high: 820,
    },
    Reel {
        slot: 9,
        low: 1000,
        high: 1000,
    },
    Reel {
        slot: 10,
        low: 1200,
        high: 1500,
    },
    Reel {
        slot: 11,
        low: 1800,
        high: 1800,
    },
    Reel {
        slot: 12,
        low: 2200,
        high: 2200,
    },
    Reel {
        slot: 13,
        low: 2700,
        high: 3300,
    },
    Reel {
        slot: 14,
        low: 3900,
        high: 3900,
    },
    Reel {
        slot: 15,
        low: 5100,
        high: 4700,
    },
    Reel {
        slot: 16,
        low: 4700,
        high: 5100,
    },
    Reel {
        slot: 17,
        low: 5600,
        high: 5600,
    },
    Reel {
        slot: 18,
        low: 6800,
        high: 8200,
    },
    Reel {
        slot: 19,
        low: 10000,
        high: 10000,
    },
    Reel {
        slot: 20,
        low: 10000,
        high: 12000,
    },
    Reel {
        slot: 21,
        low: 15000,
        high: 15000,
    },
    Reel {
        slot: 22,
        low: 18000,
        high: 22000,
    },
    Reel {
        slot: 23,
        low: 27000,
        high: 27000,
    },
    Reel {
        slot: 24,
        low: 33000,
        high: 39000,
    },
    Reel {
        slot: 25,
        low: 47000,
        high: 47000,
    },
    Reel {
        slot: 26,
        low: 56000,
        high: 68000,
    },
    Reel {
        slot: 27,
        low: 82000,
        high: 82000,
    },
    Reel {
        slot: 28,
        low: 100000,
        high: 100000,
    },
    Reel {
        slot: 29,
        low: 100,
        high: 270,
    },
    Reel {
        slot: 30,
        low: 1000,
        high: 10000,
    },
    Reel {
        slot: 31,
        low: 470,
        high: 470,
    },
];

const ASKED: [(u32, u32); 5] = [
    (240, 480),
    (10000, 10000),
    (2300, 2600),
    (4800, 240),
    (0, 4294967295),
];

// What the index answers on this store, which `end` takes back.
fn answers<S: PageStore, F: FnOnce(S)>(heap: Global, store: S, end: F) -> Log
    requires { F.IsAlwaysCallable end }
{
    let mut log = Log::new(heap);
    end(serve(store, &REELS, &ASKED, &mut log));
    log
}

// The reels that were plugged in; the place is the record number less one.
fn plugged_in(rt: &impl Print, heap: Global, log: &Log) -> io::Result<Vec<Reel>> {
    let mut plugged = Vec::new(heap);
    for (reel, answer) in REELS.iter().zip(log.answers.iter()) {
        println!(rt; "{reel}: {answer}")?;
        if let Answer::PluggedIn(_) = answer {
            plugged.push(*reel)?;
        }
    }
    Ok(plugged)
}

fn report(rt: &impl Print, heap: Global, log: &Log) -> io::Result<()> {
    let plugged = plugged_in(rt, heap, log)?;
    for answer in log.answers.iter().skip(REELS.len()) {
        match answer {
            Answer::Found(number) => match plugged.get((*number as usize).saturating_sub(1)) {
                Some(reel) => println!(rt; "  {reel}")?,
                None => println!(rt; "{answer}, which nobody plugged in")?,
            },
            _ => println!(rt; "{answer}")?,
        }
    }
    Ok(())
}

// The same on all three kinds of store, in memory for `pages` pages.
fn run(rt: &impl Print, heap: Global, pages: usize) -> io::Result<()> {
    println!(rt; "{pages} pages in memory")?;
    let words = pages.saturating_mul(65);
    let store = ArrayStore::new(vec![in heap; 7u32; words]?);
    let log = answers(heap, store, |_| {});
    report(rt, heap, &log)?;
    let cache = Cache::new(ArrayStore::new(vec![in heap; 7u32; words]?));
    let cached = answers(heap, cache, |cache| {
        let _ = cache.end();
    });
    let pile = Cache::new(Cache::new(ArrayStore::new(vec![in heap; 7u32; words]?)));
    let piled = answers(heap, pile, |upper| {
        let _ = upper.end().end();
    });
    if cached.answers == log.answers && piled.answers == log.answers {
        println!(rt; "behind a cache and behind two: the same answers")?;
    }
    if !log.whole {
        println!(rt; "there was no memory for all answers")?;
    }
    Ok(())
}

fn main(rt: HostRuntime) -> io::Result<()> {
    run(&rt, rt.alloc(), 6)?;
    run(&rt, rt.alloc(), 2)
}
