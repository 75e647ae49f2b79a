use std::alloc::Global;
use std::str::Split;

pub fn read_numbers(heap: Global, parts: Split<'_, char>) -> anyhow::Result<Vec<u32>> {
    let mut numbers = Vec::new(heap);
    for part in parts {
        numbers.push(part.parse::<u32>()?)?;
    }
    Ok(numbers)
}
