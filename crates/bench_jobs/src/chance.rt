//! Numbers by chance, the same for the same seed: SplitMix64 (Steele, Lea and Flood, 2014).
ghost use Rattle.std.specs.Prelude.{◌≤◌};

/// Where the numbers stand.
#[derive(Clone, Copy, Drop)]
pub struct Chance {
    state: u64,
}

impl Chance {
    pub fn new(seed: u32) -> Chance {
        Chance {
            state: u64::from(seed),
        }
    }

    /// The next number.
    pub fn number(&mut self) -> u64 {
        self.state = self.state.wrapping_add(0x9e37_79b9_7f4a_7c15);
        let once = (self.state ^ (self.state >> 30)).wrapping_mul(0xbf58_476d_1ce4_e5b9);
        let twice = (once ^ (once >> 27)).wrapping_mul(0x94d0_49bb_1331_11eb);
        twice ^ (twice >> 31)
    }

    /// A number below this bound, or 0 where that is 0.
    pub fn below(&mut self, bound: u32) -> u32
        ensures { result ≤ bound }
    {
        let number = self.word();
        if bound == 0 { 0 } else { number % bound }
    }

    /// An index below this length, or 0 where that is 0.
    pub fn index(&mut self, length: usize) -> usize {
        let number = self.number() as usize;
        number.checked_rem(length).unwrap_or(0)
    }

    /// 32 bits.
    pub fn word(&mut self) -> u32 {
        (self.number() >> 32) as u32
    }

    /// Whether one of so many tries comes out.
    pub fn is_one_of(&mut self, tries: u32) -> bool {
        self.below(tries) == 0
    }
}
