//! Numbers that follow from a seed.

ghost use Rattle.std.specs.Prelude.{◌<◌};

/// A row of numbers that a seed determines: SplitMix64.
#[derive(Clone, Copy)]
pub(crate) struct Chance {
    state: u64,
}

impl Chance {
    pub(crate) fn new(seed: u64) -> Chance {
        Chance { state: seed }
    }

    /// The next number.
    pub(crate) fn number(&mut self) -> u64 {
        self.state = self.state.wrapping_add(0x9e37_79b9_7f4a_7c15);
        let mixed = (self.state ^ (self.state >> 30)).wrapping_mul(0xbf58_476d_1ce4_e5b9);
        let mixed = (mixed ^ (mixed >> 27)).wrapping_mul(0x94d0_49bb_1331_11eb);
        mixed ^ (mixed >> 31)
    }

    /// The next number below a bound; 0 if the bound is 0.
    pub(crate) fn below(&mut self, bound: u32) -> u32
        ensures { 0 < bound → result < bound }
    {
        if bound == 0 {
            return 0;
        }
        (self.number() % bound as u64) as u32
    }

    /// Whether what happens once in `times` times happens now.
    pub(crate) fn is_one_in(&mut self, times: u32) -> bool {
        self.below(times) == 0
    }
}
