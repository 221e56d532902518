ghost use Rattle.std.specs.Prelude.{◌<◌, length};

/// Numbers drawn by chance, the same ones from the same seed.
#[derive(Drop)]
pub(crate) struct Draws {
    state: u64,
}

impl Draws {
    pub(crate) fn new(seed: u64) -> Self {
        let mut draws = Draws {
            state: seed.wrapping_mul(0x9e37_79b9_7f4a_7c15),
        };
        draws.advance();
        draws.advance();
        draws
    }

    fn advance(&mut self) {
        self.state = self
            .state
            .wrapping_mul(6_364_136_223_846_793_005)
            .wrapping_add(1_442_695_040_888_963_407);
    }

    /// A number below another.
    pub(crate) fn below(&mut self, bound: u64) -> u64
        requires { 0 < bound }
        ensures { result < bound }
    {
        self.advance();
        (self.state >> 33) % bound
    }

    /// One of several.
    pub(crate) fn one_of(&mut self, choices: &[u32]) -> u32
        requires { 0 < length choices.now }
    {
        choices[self.below(choices.len() as u64) as usize]
    }

    /// Yes, so many times of a hundred.
    pub(crate) fn percent(&mut self, chance: u64) -> bool {
        self.below(100) < chance
    }
}
