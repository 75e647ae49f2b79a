use index::InsertRefusal;
use key_class::KeyRefusal;
use std::fmt;

/// What the index answered the host.
#[derive(Clone, Copy, PartialEq, Eq, Debug)]
pub enum Answer {
    /// A feeder is plugged in under this record number.
    PluggedIn(u32),
    NotPluggedIn(InsertRefusal),
    /// Values that no reel can have, or that cannot be asked for.
    NoRange(KeyRefusal),
    /// A search for values from the first to the second begins.
    Asked(u32, u32),
    /// It came to the feeder with this record number.
    Found(u32),
}

// By hand: no derive prints what is no error.
impl fmt::Display for Answer {
    fn fmt<W: fmt::Write>(&self, f: &mut fmt::Formatter<W>) -> fmt::Result {
        match self {
            Answer::PluggedIn(number) => write!(f, "plugged in as record {number}"),
            Answer::NotPluggedIn(refusal) => write!(f, "not plugged in: {refusal}"),
            Answer::NoRange(refusal) => write!(f, "{refusal}"),
            Answer::Asked(low, high) => write!(f, "feeders with {low} to {high} ohm:"),
            Answer::Found(number) => write!(f, "  record {number}"),
        }
    }
}
