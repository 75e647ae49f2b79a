use crate::asked::Asked;
use anyhow::{Context, anyhow};
use key_class::{Key, KeyClass, KeyRefusal, union_of};

fn show_refusal(rt: &impl Print, refusal: KeyRefusal) -> anyhow::Result<()> {
    let number = refusal.number();
    match refusal {
        KeyRefusal::LowAboveHigh(place) | KeyRefusal::UnusedNotZero(place) => {
            println!(rt; "refused {number} {place}")?;
        }
        KeyRefusal::NoMember => println!(rt; "refused {number}")?,
    }
    Ok(())
}

pub fn single<K: Asked>(rt: &impl Print, keys: &[[u32; 4]]) -> anyhow::Result<()> {
    let words = keys.first().copied().unwrap_or([0; 4]);
    match K::try_from(words) {
        Ok(key) => {
            let [a, b, c, d] = key.squeeze();
            println!(rt; "key {a} {b} {c} {d}")?;
            Ok(())
        }
        Err(refusal) => show_refusal(rt, refusal),
    }
}

pub fn pair<K: KeyClass>(rt: &impl Print, keys: &[[u32; 4]]) -> anyhow::Result<()> {
    let [a, b] = keys else {
        return Err(anyhow!("a pair is two keys"));
    };
    match (K::unsqueeze(a), K::unsqueeze(b)) {
        (Some(a), Some(b)) => {
            let covers = a.covers(&b);
            let growth = a.growth(&b);
            let [w, x, y, z] = a.union(&b).squeeze();
            println!(rt; "covers {covers} union {w} {x} {y} {z} growth {growth}")?;
        }
        _ => println!(rt; "no key")?,
    }
    Ok(())
}

pub fn join<K: KeyClass>(rt: &impl Print, keys: &[[u32; 4]]) -> anyhow::Result<()> {
    match union_of::<K>(keys) {
        Some(union) => {
            let [w, x, y, z] = union.squeeze();
            println!(rt; "union {w} {x} {y} {z}")?;
        }
        None => println!(rt; "none")?,
    }
    Ok(())
}

pub fn split<K: KeyClass>(rt: &impl Print, keys: &[[u32; 4]]) -> anyhow::Result<()> {
    let goes = K::pick_split(keys);
    for goes in goes.iter().take(keys.len()) {
        let mark = if *goes { 'g' } else { 's' };
        print!(rt; "{mark}")?;
    }
    println!(rt; "")?;
    Ok(())
}

pub fn ask<K: Asked>(rt: &impl Print, name: &str, keys: &[[u32; 4]]) -> anyhow::Result<()> {
    let [key, words] = keys else {
        return Err(anyhow!("a key and a question are asked for"));
    };
    match K::question(name, words).context("no such question")? {
        Ok(query) => match K::unsqueeze(key) {
            Some(key) => {
                let matches = key.matches(&query);
                let may_hold = key.may_hold(&query);
                println!(rt; "matches {matches} may hold {may_hold}")?;
            }
            None => println!(rt; "no key")?,
        },
        Err(refusal) => show_refusal(rt, refusal)?,
    }
    Ok(())
}
