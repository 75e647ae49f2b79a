ghost use Rattle.std.specs.Prelude.{◌≡◌, ℕ, ◌+◌, ◌-◌, ◌*◌, ◌<◌, ◌≤◌, false, is_some, ◌≢◌, slice_index};
ghost use Rattle.page_store.specs.Pages.{free_pages};
ghost use Rattle.array_store.specs.Layout.{page_at, pages_of, listed_page, Spare};

use crate::groups::Groups;

/// Pages in a vector of words, 65 words a page.
///
/// The pages from `fresh` on have not been taken since the making. The other free pages are
/// listed, so that none is searched for: `head` is the first of the `listed` ones, and the first
/// word of each names the next.
#[derive(Drop)]
pub struct ArrayStore {
    pub(crate) groups: Groups,
    pub(crate) fresh: u32,
    pub(crate) head: u32,
    pub(crate) listed: u32,
    ghost few: { groups.size ≤ 4096 },
    ghost within: { fresh ≤ groups.size },
    ghost counted: { listed + (groups.size - fresh) ≡ free_pages (pages_of groups.words.items groups.size) },
    ghost unused: { (p : ℕ) → fresh ≤ p → p < groups.size → is_some (page_at groups.words.items p) ≡ false },
    ghost spare: { (i : ℕ) → i < listed → Spare groups.words.items fresh (listed_page groups.words.items head i) },
    ghost marks: { (p : ℕ) → p < groups.size → slice_index groups.words.items (65 * p) ≤ 1 },
    ghost apart: { (i j : ℕ) → i < j → j < listed → listed_page groups.words.items head i ≢ listed_page groups.words.items head j },
}
