//! `search`, and how many substitutions begin alike.

ghost use Rattle.std.specs.Prelude.{◌≡◌, ◌+◌, ℕ, [], IfOk, OnOk, Some, length, slice_get};
ghost use Rattle.std.specs.List.{AllByRecursion};
ghost use Rattle.spec_core.specs.Sig.{IsSort, SortsAreInRange};
ghost use Rattle.spec_core.specs.WellSorted.{IsWellSorted, sorts_of};
ghost use Rattle.spec_core.specs.Overlap.{NoOverlap};
ghost use Rattle.spec_core.specs.Groups.{GroupsAreWhole};
ghost use Rattle.spec_core.specs.Order.{substitutions};
ghost use Rattle.refuter.specs.Finds.{Finds, IsFalse};
ghost use Rattle.refuter.specs.Blocks.{AreBlockSizes, IsRowCount};

use crate::answers::Search;
use crate::counting::Counts;
use crate::fewest::MOST_SYMBOLS;
use crate::odometer::Odometer;
use crate::walking::Walk;
use ground_eval::{OpenSpec, PartialGoal};
use spec_core::{Goal, Signature, Spec, VarInfo};
use std::alloc::Global;
use term_core::{OutOfMemory, Seq, SortId, front};

/// The greatest depth of which values are counted: each level costs a pass over the constructors.
const MOST_COUNTED: u32 = 8;

/// Looks for the first counterexample among the first `tries` members of the goal's substitutions
/// of this depth. Each side has the whole budget. Members that begin with the same values and have
/// one verdict are tried in one turn, if evaluation doesn't look at the values that follow. The
/// memory doesn't grow with the number of tries: a look at some members begins with at most 2^18
/// shared values, and leaves at most those, what one verdict may add, and 255 for each variable.
/// That is in the contract of each look, since the values are gone when the search ends. What
/// calls gave is kept from one look to the next, in one table of fixed size.
pub fn search(
    alloc: Global,
    spec: &Spec,
    goal: &Goal,
    depth: u32,
    tries: u32,
    budget: u32,
) -> Result<Search, OutOfMemory>
    requires fine { IsWellSorted spec.now }
    requires listed { (k : ℕ) × (slice_get spec.now.goals k ≡ Some goal.now) }
    ensures finds { IfOk result (λ r. NoOverlap spec.now → GroupsAreWhole spec.now
        → Finds spec.now goal.now budget tries (substitutions spec.now goal.now depth) r) }

    // A counterexample is one also if left sides overlap or groups aren't whole.
    ensures found { IfOk result
        (IsFalse spec.now goal.now tries (substitutions spec.now goal.now depth)) }
{
    let opened = OpenSpec::new(alloc, spec, goal)?;
    let prepared = PartialGoal::new(alloc, spec, goal, &opened)?;
    search_prepared(alloc, spec, goal, &prepared, depth, tries, budget)
}

/// The same for a goal that is prepared.
fn search_prepared(
    alloc: Global,
    spec: &Spec,
    goal: &Goal,
    prepared: &PartialGoal,
    depth: u32,
    tries: u32,
    budget: u32,
) -> Result<Search, OutOfMemory>
    requires fine { IsWellSorted spec.now }
    requires listed { (k : ℕ) × (slice_get spec.now.goals k ≡ Some goal.now) }
    requires spec { prepared.now.spec ≡ spec.now }
    requires goal { prepared.now.goal ≡ goal.now }
    ensures finds { IfOk result (λ r. NoOverlap spec.now → GroupsAreWhole spec.now
        → Finds spec.now goal.now budget tries (substitutions spec.now goal.now depth) r) }
    ensures found { IfOk result
        (IsFalse spec.now goal.now tries (substitutions spec.now goal.now depth)) }
{
    let odometer = Odometer::new(alloc, &spec.sig)?;
    let sorts = sorts_of_vars(alloc, goal.vars.as_slice())?;
    let sizes = block_sizes(alloc, &spec.sig, sorts.as_slice(), depth)?;
    let walk = Walk {
        prepared,
        odometer: &odometer,
        sizes: &sizes,
        depth,
        bound: MOST_SYMBOLS * sorts.len() as u32,
        tries,
        budget,
    };
    walk.search(alloc, sorts.as_slice())
}

/// The sorts of the variables.
pub(crate) fn sorts_of_vars(alloc: Global, vars: &[VarInfo]) -> Result<Seq<SortId>, OutOfMemory>
    ensures { IfOk result (λ r. r ≡ sorts_of vars.now) }
{
    let mut sorts = Seq::new(alloc);
    for var in vars {
        sorts.push(var.sort)?;
    }
    Ok(sorts)
}

/// The numbers of rows of values of the last sorts, first of none of them and last of all, if the
/// values are counted.
fn block_sizes(
    alloc: Global,
    sig: &Signature,
    sorts: &[SortId],
    depth: u32,
) -> Result<Vec<u32>, OutOfMemory>
    requires in_range { SortsAreInRange sig.now }
    requires sorts { AllByRecursion (IsSort sig.now) sorts.now }
    ensures { IfOk result (λ sizes. AreBlockSizes sig.now depth sorts.now sizes.items) }
{
    let mut sizes = Vec::new(alloc);
    if depth > MOST_COUNTED {
        return Ok(sizes);
    }
    let counts = Counts::new(alloc, sig, depth, u32::MAX)?;
    push_sizes(&counts, sorts, &mut sizes)?;
    Ok(sizes)
}

/// Appends these numbers, and gives the last one too.
fn push_sizes(counts: &Counts, sorts: &[SortId], sizes: &mut Vec<u32>) -> Result<u32, OutOfMemory>
    requires sorts { AllByRecursion (IsSort counts.now.sig) sorts.now }
    requires cap { counts.now.cap ≡ 4294967295 }
    requires none { sizes.old.items ≡ [] }
    ensures sizes { OnOk result
        (AreBlockSizes counts.now.sig counts.now.depth sorts.now sizes.new.items) }
    ensures long { OnOk result (length sizes.new.items ≡ length sorts.now + 1) }
    ensures last { IfOk result (IsRowCount counts.now.sig counts.now.depth sorts.now) }
{
    let Some((sort, others)) = front(sorts) else {
        sizes.push(1)?;
        return Ok(1);
    };
    let size = push_sizes(counts, others, sizes)?;
    let more = size.saturating_mul(counts.of(*sort));
    sizes.push(more)?;
    Ok(more)
}
