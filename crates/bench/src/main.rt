//! 20,000 rectangles inserted into an index on an array store, and 20,000 searches for those that meet a rectangle.
//!
//! It prints what was found, which the gate compares; with the argument `time` also what an insert and a search took.
#![tactic(auto)]

mod drawn;
mod work;

use array_store::ArrayStore;
use drawn::Draw;
use index::Index;
use rectangles::Rectangle;
use std::time::{Duration, Instant};
use std::{env, io};
use work::{Sums, insert_all, search_all};

const ROUNDS: usize = 20000;

// Memory for as many pages as a store can have.
const WORDS: usize = 4096 * 65;

fn draw_many(rt: &HostRuntime, draw: &mut Draw, side: u32) -> io::Result<Vec<[u32; 4]>> {
    let mut drawn = Vec::new(rt.alloc());
    for _ in 0..ROUNDS {
        drawn.push(draw.words(side))?;
    }
    Ok(drawn)
}

// Nanoseconds an operation.
fn each(taken: Duration) -> u128 {
    taken.as_nanos() / 20000
}

fn main(rt: HostRuntime) -> io::Result<()> {
    let mut draw = Draw::new();
    let boards = draw_many(&rt, &mut draw, 200)?;
    let asked = draw_many(&rt, &mut draw, 2000)?;
    let timed = env::args(&rt)?.count() > 1;
    let memory = vec![in rt.alloc(); 0u32; WORDS]?;
    let clock = Instant::now(&rt)?;
    let mut index: Index<Rectangle, ArrayStore> = Index::new(ArrayStore::new(memory));
    let inserted = insert_all(&mut index, &boards);
    let inserting = clock.elapsed(&rt);
    let (index, sums) = search_all(index, &asked);
    let both = clock.elapsed(&rt);
    let _store = index.dismantle();
    let Sums {
        hits,
        weighed,
        numbers,
    } = sums;
    println!(rt; "{inserted} inserted, {hits} hits, checksum {weighed}, record numbers {numbers}")?;
    if timed {
        let inserting = inserting?;
        let searching = both?.saturating_sub(inserting);
        let insert = each(inserting);
        let search = each(searching);
        println!(rt; "{insert} ns an insert, {search} ns a search")?;
    }
    Ok(())
}
