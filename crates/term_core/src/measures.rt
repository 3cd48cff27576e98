//! What is kept of terms: size, depth, bound, and what their numbering needs.

ghost use Rattle.std.specs.Prelude.{◌≡◌, ℕ};
ghost use Rattle.term_core.specs.Tree.{Trees, var as variable, app as application, none};
ghost use Rattle.term_core.specs.Measures.{measure_of, measures_of, followed};

use crate::ids::VarId;

/// What is kept of terms: the number of their symbols and variables and the greatest number of them
/// on a way down, both at most the greatest u32; one more than their greatest variable, which is 0
/// if they have none; and how many variables have to be numbered before them for theirs to be
/// numbered by first occurrence.
#[derive(Clone, Copy, PartialEq, Eq)]
pub(crate) struct Measure {
    pub(crate) size: u32,
    pub(crate) depth: u32,
    pub(crate) bound: u64,
    pub(crate) need: u32,
}

impl Measure {
    pub(crate) fn of_variable(var: VarId) -> Measure
        ensures { result ≡ measure_of (variable var.0) }
    {
        Measure {
            size: 1,
            depth: 1,
            bound: var.0 as u64 + 1,
            need: var.0,
        }
    }

    /// That of no terms.
    pub(crate) fn of_none() -> Measure
        ensures { result ≡ measures_of none }
    {
        Measure {
            size: 0,
            depth: 0,
            bound: 0,
            need: 0,
        }
    }

    /// That of terms with a further one after them.
    pub(crate) fn and(self, next: Measure) -> Measure
        ensures { result ≡ followed self next }
    {
        let need = if next.need as u64 <= self.bound {
            self.need
        } else {
            self.need.max(next.need)
        };
        Measure {
            size: self.size.saturating_add(next.size),
            depth: self.depth.max(next.depth),
            bound: self.bound.max(next.bound),
            need,
        }
    }

    /// That of a symbol applied to terms of which this is the measure.
    pub(crate) fn below_symbol(self) -> Measure
        ensures { (f : ℕ) (ts : Trees) → self ≡ measures_of ts →
            result ≡ measure_of (application f ts) }
    {
        Measure {
            size: self.size.saturating_add(1),
            depth: self.depth.saturating_add(1),
            bound: self.bound,
            need: self.need,
        }
    }
}
