ghost use Rattle.std.specs.Prelude.{◌≡◌, ◌&&◌, if◌then◌else◌, Some, None, nat_le};
ghost use Rattle.gist.specs.Rules.{least_pages};

/// The least pages of a tree, by its levels.
const LEAST_PAGES: [u32; 7] = [1, 3, 11, 43, 171, 683, 2731];

/// The most levels of a tree. Eight would take 10,923 pages at the least, and a store has at most 4,096.
pub const MOST_LEVELS: usize = LEAST_PAGES.len();

/// The least pages of a tree with so many levels; none but for 1 to 7.
pub fn least_pages(levels: u32) -> Option<u32>
    ensures { result ≡ (if nat_le 1 levels && nat_le levels 7 then Some (least_pages levels) else None) }
{
    let below_the_root = levels.checked_sub(1)?;
    LEAST_PAGES.get(below_the_root as usize).copied()
}
