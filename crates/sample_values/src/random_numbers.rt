//! `RandomNumbers`: a generator with one fixed seed.

ghost use Rattle.std.specs.Prelude.{◌<◌};

/// The seed that is usual for this generator. It is only not to be 0.
const SEED: u64 = 88_172_645_463_325_252;

/// Random numbers by xorshift, the same ones in each run.
#[derive(Drop)]
pub(crate) struct RandomNumbers {
    state: u64,
}

impl RandomNumbers {
    pub(crate) fn new() -> RandomNumbers {
        RandomNumbers { state: SEED }
    }

    /// A number below this one. The lowest bits are the least random, so they are left out.
    pub(crate) fn below(&mut self, bound: u32) -> u32
        requires { 0 < bound }
        ensures { result < bound }
    {
        let mut state = self.state;
        state ^= state << 13;
        state ^= state >> 7;
        state ^= state << 17;
        self.state = state;
        ((state >> 11) % u64::from(bound)) as u32
    }
}
