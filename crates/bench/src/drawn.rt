/// Numbers drawn by a shift register of 32 bits.
#[derive(Drop)]
pub struct Draw {
    state: u32,
}

impl Draw {
    pub fn new() -> Draw {
        Draw { state: 2463534242 }
    }

    fn below(&mut self, limit: u32) -> u32 {
        let mut x = self.state;
        x ^= x << 13;
        x ^= x >> 17;
        x ^= x << 5;
        self.state = x;
        x.checked_rem(limit).unwrap_or(0)
    }

    /// A rectangle within 100,000, with sides below `side`.
    pub fn words(&mut self, side: u32) -> [u32; 4] {
        let left = self.below(100000);
        let bottom = self.below(100000);
        let right = left.saturating_add(self.below(side));
        let top = bottom.saturating_add(self.below(side));
        [left, bottom, right, top]
    }
}
