//! Pseudo-random numbers.

ghost use Rattle.std.specs.Prelude.{◌<◌};

/// Pseudo-random numbers, the same ones for the same seed.
#[derive(Drop)]
pub struct Random {
    state: u64,
}

impl Random {
    /// The generator of a seed.
    pub fn new(seed: u64) -> Random {
        Random { state: seed }
    }

    /// The next number; its upper bits are more random than its lower ones.
    pub fn next(&mut self) -> u64 {
        self.state = self
            .state
            .wrapping_mul(6_364_136_223_846_793_005)
            .wrapping_add(1_442_695_040_888_963_407);
        self.state
    }

    /// The next number, below `count`.
    pub fn below(&mut self, count: usize) -> usize
        requires { 0 < count }
        ensures { result < count }
    {
        (self.next() >> 33) as usize % count
    }

    /// True one time in `count`.
    pub fn once_in(&mut self, count: usize) -> bool
        requires { 0 < count }
    {
        self.below(count) == 0
    }
}
