//! Values by number.

ghost use Rattle.bank_core.specs.Hashing.{stirred_by};

use bank_core::Part;

/// A value, by its number among the [`crate::Samples`] that gave it. Equal numbers are equal
/// values.
#[derive(Clone, Copy, Debug, PartialEq, Eq)]
pub struct Value(pub u32);

impl Part for Value {
    ghost stirred = { λ hash value. stirred_by hash value.0 };

    #[inline(always)]
    fn same(self, other: Value) -> bool {
        self.0 == other.0
    }

    #[inline(always)]
    fn stir(self, hash: u64) -> u64 {
        self.0.stir(hash)
    }
}
