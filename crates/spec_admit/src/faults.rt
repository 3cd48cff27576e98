//! Why a specification isn't admitted.

ghost use Rattle.spec_admit.specs.declared.faults.AdmitFault.TheVariants.{
  OutOfMemory as out_of_memory,
};
ghost use Rattle.std.specs.Prelude.{◌≡◌};

use spec_core::Spec;
use std::fmt;
use term_core::{Name, OutOfMemory, Seq, SymId, Term};

/// Why a specification isn't admitted. Rules count from 1.
#[derive(Drop)]
pub enum AdmitFault {
    /// A variable that occurs twice on the left side of the rule: of the first such rule the
    /// variable of least number.
    Linear {
        rule: u32,
        name: Name,
    },
    /// The left side isn't above the right side, for part 0, or above the guard with this number or
    /// the Boolean that it wants.
    Order {
        rule: u32,
        part: u32,
    },
    /// Values that match the left sides of both rules, which are different: the arguments of the
    /// first under a most general unifier, with small values for the variables that are left.
    Overlap {
        first: u32,
        second: u32,
        values: Seq<Term>,
    },
    /// The guards of the rules with this rule's left side form no complete decision tree. The rule
    /// is the first of them.
    Guards {
        rule: u32,
    },
    /// Values of the function's argument sorts that match no left side: under the first
    /// constructors that leave some missing, and small ones where the left sides don't decide.
    Coverage {
        fun: SymId,
        values: Seq<Term>,
    },
    /// It may come in place of any other answer.
    OutOfMemory,
}

impl From<OutOfMemory> for AdmitFault {
    ghost from_gives = { λ _ e. e ≡ out_of_memory };

    fn from(_error: OutOfMemory) -> AdmitFault {
        AdmitFault::OutOfMemory
    }
}

impl fmt::Display for AdmitFault {
    fn fmt<W: fmt::Write>(&self, f: &mut fmt::Formatter<W>) -> fmt::Result {
        match self {
            AdmitFault::Linear { rule, name: _ } => write!(f, "linear: rule {rule}"),
            AdmitFault::Order { rule, part: 0 } => write!(f, "order: rule {rule}, right side"),
            AdmitFault::Order { rule, part } => write!(f, "order: rule {rule}, guard {part}"),
            AdmitFault::Overlap {
                first,
                second,
                values: _,
            } => write!(f, "overlap: rules {first} and {second}"),
            AdmitFault::Guards { rule } => write!(f, "guards: rule {rule}"),
            AdmitFault::Coverage { fun, values: _ } => write!(f, "coverage: symbol {}", fun.0),
            AdmitFault::OutOfMemory => f.write_str("out of memory"),
        }
    }
}

/// A specification that isn't admitted, as it was handed in, and its first fault.
#[derive(Drop)]
pub struct AdmitError {
    pub spec: Spec,
    pub fault: AdmitFault,
}

impl fmt::Display for AdmitError {
    fn fmt<W: fmt::Write>(&self, f: &mut fmt::Formatter<W>) -> fmt::Result {
        write!(f, "{}", self.fault)
    }
}
