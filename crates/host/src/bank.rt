// The feeder bank on the pages of a store.
ghost use Rattle.std.specs.Prelude.{◌≡◌};

use crate::feeder::Feeder;
use intervals::IntervalQuery;
use key_class::KeyClass;
use page_store::{PageStore, take_with};
use std::io;

pub fn plug_in<S: PageStore>(rt: &impl Print, store: &mut S, feeder: &Feeder) -> io::Result<()> {
    match take_with(store, &<[u32; 64]>::from(*feeder)) {
        Ok(page) => println!(rt; "page {page} taken: {feeder}"),
        Err(refusal) => println!(rt; "no page for {feeder}: {refusal}"),
    }
}

pub fn unplug<S: PageStore>(rt: &impl Print, store: &mut S, page: u32) -> io::Result<()> {
    match store.give_back(page) {
        Ok(()) => println!(rt; "page {page} given back"),
        Err(refusal) => println!(rt; "page {page} not given back: {refusal}"),
    }
}

pub fn list<S: PageStore>(rt: &impl Print, store: &mut S) -> io::Result<()>
    ensures { S.meaning store.new ≡ S.meaning store.old }
{
    let mut words = [0; 64];
    // By page number: a store is asked for one page at a time, and no iterator may borrow it meanwhile.
    for page in 0..store.size() {
        match store.read(page, &mut words) {
            Ok(()) => {
                let feeder = Feeder::from(&words);
                println!(rt; "page {page}: {feeder}")?;
            }
            Err(refusal) => println!(rt; "page {page}: {refusal}")?,
        }
    }
    Ok(())
}

// Prints the feeder if it has a value that the question asks for.
fn show_match(rt: &impl Print, feeder: &Feeder, query: &IntervalQuery) -> io::Result<()> {
    match feeder.reel.range() {
        Ok(range) => {
            if range.matches(query) {
                println!(rt; "  {feeder}")?;
            }
        }
        Err(refusal) => println!(rt; "  {feeder}: {refusal}")?,
    }
    Ok(())
}

/// Prints the feeders with a value from `low` to `high`.
pub fn find<S: PageStore>(rt: &impl Print, store: &mut S, low: u32, high: u32) -> io::Result<()>
    ensures { S.meaning store.new ≡ S.meaning store.old }
{
    println!(rt; "feeders with {low} to {high} ohm:")?;
    let query = match IntervalQuery::meets(&[low, high, 0, 0]) {
        Ok(query) => query,
        Err(refusal) => return println!(rt; "  {refusal}"),
    };
    let mut words = [0; 64];
    // By page number: a store is asked for one page at a time, and no iterator may borrow it meanwhile.
    for page in 0..store.size() {
        if store.read(page, &mut words).is_ok() {
            show_match(rt, &Feeder::from(&words), &query)?;
        }
    }
    Ok(())
}
