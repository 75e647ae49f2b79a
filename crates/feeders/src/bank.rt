// The feeder bank: an index of value ranges, on whatever store it is given.
ghost use Rattle.std.specs.Prelude.{◌≡◌};
ghost use Rattle.index.specs.Parts.{store_in};
ghost use Rattle.index.specs.Searching.{index_in};
ghost use Rattle.feeders.specs.Listing.{Lists};

use crate::answer::Answer;
use crate::log::Log;
use index::{Index, Search};
use intervals::{Interval, IntervalQuery};
use page_store::PageStore;
use reels::Reel;

type Bank<S> = Index<Interval, S>;

fn plug_in<S: PageStore>(bank: &mut Bank<S>, reel: &Reel) -> Answer {
    match reel.range() {
        Ok(range) => match bank.insert(&range) {
            Ok(number) => Answer::PluggedIn(number),
            Err(refusal) => Answer::NotPluggedIn(refusal),
        },
        Err(refusal) => Answer::NoRange(refusal),
    }
}

// Works a search off: notes all that was still to come, in its order.
fn list<S: PageStore>(search: &mut Search<Interval, S>, log: &mut Log)
    ensures { Lists (S.meaning (store_in (index_in search.old))) search.old log.old log.new }
{
    while let Some(found) = search.next() {
        log.note(Answer::Found(found.number));
    }
}

// Asks which feeders have a value from `low` to `high`.
fn find<S: PageStore>(bank: Bank<S>, low: u32, high: u32, log: &mut Log) -> Bank<S> {
    log.note(Answer::Asked(low, high));
    match IntervalQuery::meets(&[low, high, 0, 0]) {
        Ok(query) => {
            let mut search = bank.begin(query);
            list(&mut search, log);
            search.end()
        }
        Err(refusal) => {
            log.note(Answer::NoRange(refusal));
            bank
        }
    }
}

/// Plugs the reels in, asks for each range of values, and hands the store back.
pub fn serve<S: PageStore>(store: S, reels: &[Reel], asked: &[(u32, u32)], log: &mut Log) -> S {
    let mut bank = Index::new(store);
    for reel in reels {
        log.note(plug_in(&mut bank, reel));
    }
    for (low, high) in asked {
        bank = find(bank, *low, *high, log);
    }
    bank.dismantle()
}
