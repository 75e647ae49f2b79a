use index::{Index, Search};
use page_store::PageStore;
use rectangles::{Rectangle, RectangleQuery};

/// What the searches found: how much, each search weighed by its place, and the sum of the record numbers.
#[derive(Clone, Copy)]
pub struct Sums {
    pub hits: u64,
    pub weighed: u64,
    pub numbers: u64,
}

/// Inserts each rectangle, and answers how many were not refused.
pub fn insert_all<S: PageStore>(index: &mut Index<Rectangle, S>, boards: &[[u32; 4]]) -> usize {
    let mut done: usize = 0;
    for words in boards {
        // Words that are no rectangle are passed over.
        if let Ok(key) = Rectangle::try_from(*words) {
            if index.insert(&key).is_ok() {
                done = done.saturating_add(1);
            }
        }
    }
    done
}

// Works one search off, and adds the number of each record; answers how many there were.
fn list<S: PageStore>(search: &mut Search<Rectangle, S>, numbers: &mut u64) -> u64 {
    let mut hits: u64 = 0;
    while let Some(found) = search.next() {
        hits = hits.saturating_add(1);
        *numbers = numbers.saturating_add(found.number as u64);
    }
    hits
}

/// Asks for each rectangle which records meet it.
pub fn search_all<S: PageStore>(
    mut index: Index<Rectangle, S>,
    asked: &[[u32; 4]],
) -> (Index<Rectangle, S>, Sums) {
    let mut sums = Sums {
        hits: 0,
        weighed: 0,
        numbers: 0,
    };
    // Each search is weighed by its place, from 1 to 97 and again from 1.
    for (words, weight) in asked.iter().zip((1..=97u64).cycle()) {
        // As above; the weight goes on all the same.
        if let Ok(query) = RectangleQuery::meets(words) {
            let mut search = index.begin(query);
            let hits = list(&mut search, &mut sums.numbers);
            index = search.end();
            sums.hits = sums.hits.saturating_add(hits);
            sums.weighed = sums.weighed.saturating_add(hits.saturating_mul(weight));
        }
    }
    (index, sums)
}
