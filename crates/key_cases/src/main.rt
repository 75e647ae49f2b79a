//! Answers cases about keys, one a line, so that they can be compared with an implementation of their own.
//!
//! A line names a class (interval, rectangle, set), what is asked, and squeezed keys of four words each:
//!
//!     CLASS key K             the key, or the refusal
//!     CLASS pair A B          whether A covers B, their union, the growth of A for B
//!     CLASS join K K ..       the union of all
//!     CLASS split K K ..      which stay (s) and which go (g)
//!     CLASS QUESTION A Q      whether A matches, and may hold, the question: meets, inside or point, and for sets
//!                             all, shares or within
#![tactic(auto)]

mod asked;
mod keys;
mod read;

use anyhow::{Context, anyhow};
use asked::Asked;
use intervals::Interval;
use keys::{ask, join, pair, single, split};
use member_sets::SetKey;
use read::read_numbers;
use rectangles::Rectangle;
use std::alloc::Global;
use std::io::{BufRead, BufReader};
use std::str::Split;

fn answer<K: Asked>(
    rt: &impl Print,
    heap: Global,
    asked: &str,
    parts: Split<'_, char>,
) -> anyhow::Result<()> {
    let numbers = read_numbers(heap, parts)?;
    let (keys, _) = numbers.as_chunks::<4>();
    match asked {
        "key" => single::<K>(rt, keys),
        "pair" => pair::<K>(rt, keys),
        "join" => join::<K>(rt, keys),
        "split" => split::<K>(rt, keys),
        _ => ask::<K>(rt, asked, keys),
    }
}

fn line_answer(rt: &impl Print, heap: Global, line: &str) -> anyhow::Result<()> {
    let mut parts = line.split(' ');
    let class = parts.next().context("an empty line")?;
    let asked = parts.next().context("nothing is asked")?;
    // What is read is text, so the class is looked up here, and only here.
    match class {
        "interval" => answer::<Interval>(rt, heap, asked, parts),
        "rectangle" => answer::<Rectangle>(rt, heap, asked, parts),
        "set" => answer::<SetKey>(rt, heap, asked, parts),
        _ => Err(anyhow!("no such class")),
    }
}

fn main(rt: HostRuntime) -> anyhow::Result<()> {
    let heap = rt.alloc();
    for line in BufReader::new(heap, rt.stdin())?.lines(heap) {
        line_answer(&rt, heap, &line?)?;
    }
    Ok(())
}
