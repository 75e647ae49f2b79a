ghost use Rattle.std.specs.Prelude.{◌≡◌, ℕ, ◌+◌, ◌^◌, ◌<◌, List, length, if◌then◌else◌, nat_le};
ghost use Rattle.node.specs.Reading.{count_in};
ghost use Rattle.node.specs.InMemory.{words_in};
ghost use Rattle.gist.specs.Insert.{Step};
ghost use Rattle.insertion.specs.Refusals.{asked};
ghost use Rattle.insertion.specs.Way.{Knows, FullLeaf};

use crate::refusal::InsertRefusal;
use node::Node;
use page_store::PageStore;
use tree_pages::MOST_LEVELS;

// Whether a node has all the entries that it can hold.
pub(crate) fn is_full(node: &Node) -> bool
    ensures { result ≡ nat_le 12 (count_in (words_in node.now)) }
{
    node.count() >= Node::CAPACITY
}

/// What is known of the nodes above a node on the way of a key.
#[derive(Clone, Copy)]
pub(crate) struct Above {
    /// How many directly above it are full.
    pub run: u32,
    /// The levels of the whole tree.
    pub levels: u32,
}

impl Above {
    // The same for a child of this node.
    pub(crate) fn child_of(self, node: &Node) -> Above
        ensures { (n : ℕ) → self.run ≡ n → n + 1 < 2 ^ 32 → result ≡ record { run = (if nat_le 12 (count_in (words_in node.now)) then 1 + n else 0); levels = self.levels } }
    {
        let run = if is_full(node) {
            self.run.saturating_add(1)
        } else {
            0
        };
        Above {
            run,
            levels: self.levels,
        }
    }

    // What is asked before a full leaf is split.
    pub(crate) fn ask<S: PageStore>(self, store: &S) -> Result<(), InsertRefusal>
        ensures { FullLeaf self (S.meaning store.now) result }
    {
        let splits = self.run.saturating_add(1);
        let new_root = splits == self.levels;
        if new_root && self.levels as usize >= MOST_LEVELS {
            return Err(InsertRefusal::TooManyLevels);
        }
        let needed = splits.saturating_add(u32::from(new_root));
        let free = store.free_count();
        if needed > free {
            return Err(InsertRefusal::TooFewPages { needed, free });
        }
        Ok(())
    }
}
