//! Shows pages of the index to service staff.
//!
//! Each line of the input names a key class (interval, rectangle, set) and the 64 words of a page. What the page is comes
//! out in a readable form, or the reason why it is no node.
#![tactic(auto)]

mod dump;
mod read;

use anyhow::{Context, anyhow};
use dump::dump;
use intervals::Interval;
use member_sets::SetKey;
use read::read_page;
use rectangles::Rectangle;
use std::io::{BufRead, BufReader};

fn dump_line(rt: &impl Print, line: &str) -> anyhow::Result<()> {
    let mut parts = line.split(' ');
    let class = parts.next().context("an empty line")?;
    let page = read_page(parts)?;
    match class {
        "interval" => dump::<Interval>(rt, &page)?,
        "rectangle" => dump::<Rectangle>(rt, &page)?,
        "set" => dump::<SetKey>(rt, &page)?,
        _ => return Err(anyhow!("no such class")),
    }
    Ok(())
}

fn main(rt: HostRuntime) -> anyhow::Result<()> {
    for line in BufReader::new(rt.alloc(), rt.stdin())?.lines(rt.alloc()) {
        dump_line(&rt, &line?)?;
    }
    Ok(())
}
