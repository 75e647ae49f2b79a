// What several calls of any page store do together, known from its contracts alone.
ghost use Rattle.std.specs.Prelude.{◌≡◌};
ghost use Rattle.page_store.specs.Calls.{Takes, Takeable};

use crate::refusal::StoreRefusal;
use crate::store::PageStore;

/// Takes a page and writes `words` to it.
pub fn take_with<S: PageStore>(store: &mut S, words: &[u32; 64]) -> Result<u32, StoreRefusal>
    ensures { Takes (S.meaning store.old) (S.meaning store.new) words.now result }
{
    let page = store.take()?;
    store.write(page, words)?;
    Ok(page)
}

/// Takes a page with `words`, reads them back and gives the page back.
pub fn self_test<S: PageStore>(store: &mut S, words: &mut [u32; 64]) -> Result<u32, StoreRefusal>
    ensures { (S.meaning store.new ≡ S.meaning store.old) × (words.new ≡ words.old) × Takeable (S.meaning store.old) result }
{
    let page = take_with(store, words)?;
    store.read(page, words)?;
    store.give_back(page)?;
    Ok(page)
}
