ghost use Rattle.std.specs.Prelude.{◌≡◌, ◌+◌, ◌<◌, ◌≤◌, [], count_by, map, length, take, drop, nat_lt, nat_le, slice_index, slice_index_or};
ghost use Rattle.intervals.specs.Ranks.{by_rank};

// How many keys rank below the key at `i`: those with a lower low end, and earlier ones with the same.
fn rank(words: &[[u32; 4]], i: usize) -> usize
    requires { i < length words.now }
    ensures { let low = slice_index (slice_index_or words.now i []) 0 in
        result ≡ count_by (λ w. nat_le (slice_index w 0) low) (take i words.now) + count_by (λ w. nat_lt (slice_index w 0) low) (drop (i + 1) words.now) }
{
    let low = words[i][0];
    let mut rank = 0;
    for earlier in &words[..i] {
        if earlier[0] <= low {
            rank += 1;
        }
    }
    for later in &words[i + 1..] {
        if later[0] < low {
            rank += 1;
        }
    }
    rank
}

// Which of at most 15 keys go: those whose low end is not in the lower half by rank.
pub(crate) fn split_by_rank(words: &[[u32; 4]]) -> [bool; 15]
    requires { length words.now ≤ 15 }
    ensures { take (length words.now) result ≡ by_rank (map (λ w. slice_index w 0) words.now) }
{
    let n = words.len();
    let half = n / 2;
    let mut goes = [false; 15];
    // By place, which a rank depends on.
    for (i, mark) in goes[..n].iter_mut().enumerate() {
        *mark = rank(words, i) >= half;
    }
    goes
}
