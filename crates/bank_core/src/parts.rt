//! `Part`: what is compared and taken into a hash, as a trait.

ghost use Rattle.std.specs.Prelude.{◌≡◌, ℕ, ◌↔◌, IsTrue};
ghost use Rattle.bank_core.specs.Hashing.{stirred_by};

/// What entries are made of: it is compared, and taken into a hash.
pub trait Part: Copy {
    /// A hash with this one more part.
    ghost stirred: { ℕ → Self → ℕ };

    fn same(self, other: Self) -> bool
        ensures { IsTrue result ↔ (self ≡ other) };

    fn stir(self, hash: u64) -> u64
        ensures { result ≡ stirred hash self };
}

/// The odd number next to 2^64 divided by the golden ratio (Knuth, 1973): bits of a product with it
/// depend on all lower ones of the other factor, so the upper half is the hash.
const FACTOR: u64 = 0x9e37_79b9_7f4a_7c15;

impl Part for u32 {
    ghost stirred = { stirred_by };

    #[inline(always)]
    fn same(self, other: u32) -> bool {
        self == other
    }

    #[inline(always)]
    fn stir(self, hash: u64) -> u64 {
        (hash ^ self as u64).wrapping_mul(FACTOR)
    }
}
