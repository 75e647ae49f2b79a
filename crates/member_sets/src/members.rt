/// A set of the numbers 0 to 127, perhaps empty: member k is bit k mod 32 of word k / 32.
#[derive(Clone, Copy, PartialEq, Eq, Debug)]
pub struct Members {
    pub w0: u32,
    pub w1: u32,
    pub w2: u32,
    pub w3: u32,
}
