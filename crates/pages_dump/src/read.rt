use anyhow::{Context, anyhow};
use std::str::Split;

// The 64 words of a page.
pub fn read_page(mut parts: Split<'_, char>) -> anyhow::Result<[u32; 64]> {
    let mut words = [0; 64];
    for word in words.iter_mut() {
        *word = parts.next().context("a page has 64 words")?.parse()?;
    }
    if parts.next().is_some() {
        return Err(anyhow!("a page has 64 words"));
    }
    Ok(words)
}
