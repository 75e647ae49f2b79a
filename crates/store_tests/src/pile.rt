ghost use Rattle.std.specs.Prelude.{◌≡◌};

use page_cache::Cache;
use page_store::{PageStore, self_test};

/// A self-test through two caches leaves the store below as it was, whatever store that is and whatever came of the test.
pub fn tested_through_a_pile<S: PageStore>(below: S) -> S
    ensures { S.meaning result ≡ S.meaning below }
{
    let mut pile = Cache::new(Cache::new(below));
    let _ = self_test(&mut pile, &mut [5; 64]);
    pile.end().end()
}
