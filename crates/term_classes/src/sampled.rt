//! `Sampled`: the value of a term at a sample.

ghost use Rattle.term_classes.specs.Sampled.{stirred_by_sampled};

use bank_core::Part;
use sample_values::Value;

/// The value of a term at a sample, unless the evaluation was given up.
#[derive(Clone, Copy, PartialEq, Eq)]
pub(crate) enum Sampled {
    Known(Value),
    Unknown,
}

impl Part for Sampled {
    ghost stirred = { stirred_by_sampled };

    fn same(self, other: Sampled) -> bool {
        self == other
    }

    fn stir(self, hash: u64) -> u64 {
        match self {
            Sampled::Known(value) => value.0.stir(hash),
            Sampled::Unknown => u32::MAX.stir(hash),
        }
    }
}
