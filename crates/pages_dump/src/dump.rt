use key_class::KeyClass;
use node::{Entry, Node};
use std::fmt::Display;
use std::io;

fn dump_node<K: KeyClass + Display>(rt: &impl Print, node: &Node) -> io::Result<()> {
    let level = node.level();
    let count = node.count();
    println!(rt; "level {level}, count {count}")?;
    let kind = if level == 1 { "record" } else { "page" };
    // By place, which is printed.
    for place in 0..count {
        if let Some(Entry { key, link }) = node.entry::<K>(place) {
            println!(rt; "  {place}: {key}, {kind} {link}")?;
        }
    }
    Ok(())
}

/// Prints the node that a page is, or why it is none.
pub fn dump<K: KeyClass + Display>(rt: &impl Print, page: &[u32; 64]) -> io::Result<()> {
    match Node::read::<K>(page) {
        Ok(node) => dump_node::<K>(rt, &node),
        Err(refusal) => println!(rt; "{refusal}"),
    }
}
