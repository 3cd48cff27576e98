//! The rounds over equations of two variables.

ghost use Rattle.std.specs.Prelude.{◌≡◌, ◌≤◌, ◌<◌, ℕ, ◌+◌, suc, false, List, length, OnOk};
ghost use Rattle.std.specs.List.{AllByRecursion};
ghost use Rattle.spec_core.specs.Findings.{test};
ghost use Rattle.sort_check.specs.Answers.{Answers};
ghost use Rattle.sort_check.specs.Entries.{Differ, sort_at};
ghost use Rattle.sort_check.specs.Rounds.{round_tests, after_round, rounds_tests, after_rounds};
ghost use Rattle.sort_check.specs.Rounds.{after_pair};
ghost use Rattle.sort_check.specs.Parts.{IsWithin};
ghost use Rattle.sort_check.specs.declared.faults.SortFault.TheVariants.{Sort};
ghost use Rattle.sort_check.specs.declared.faults.SortKind.TheVariants.{WrongSort as wrong_sort};

use crate::entries::Pair;
use crate::faults::{SortFault, SortKind, fault};
use term_core::{SortId, front};

/// Gives the variables the sorts that the equations of two variables give them: the equations in
/// order, and again until a whole round changes nothing.
pub(crate) fn infer(known: &mut [Option<SortId>], pairs: &[Pair]) -> Result<(), SortFault>
    requires within { AllByRecursion (IsWithin known.old) pairs.now }
    requires few { length known.old ≤ 16 }
    ensures { Answers (rounds_tests (1 + length known.old) known.old pairs.now)
        (λ _. known.new ≡ after_rounds (1 + length known.old) known.old pairs.now) result }
{
    let count = 1 + known.len();
    run_rounds(known, pairs, count)
}

/// This many rounds, or fewer if one changes nothing.
fn run_rounds(known: &mut [Option<SortId>], pairs: &[Pair], count: usize) -> Result<(), SortFault>
    requires { AllByRecursion (IsWithin known.old) pairs.now }
    ensures { Answers (rounds_tests count known.old pairs.now)
        (λ _. known.new ≡ after_rounds count known.old pairs.now) result }
{
    if count == 0 {
        return Ok(());
    }
    let changed = round(known, pairs)?;
    if !changed {
        return Ok(());
    }
    run_rounds(known, pairs, count - 1)
}

/// One round over the equations, which says whether a variable got its sort.
fn round(known: &mut [Option<SortId>], pairs: &[Pair]) -> Result<bool, SortFault>
    requires { AllByRecursion (IsWithin known.old) pairs.now }
    ensures { Answers (round_tests known.old pairs.now)
        (λ changed. (known.new ≡ after_round known.old pairs.now)
        × (changed ≡ false → known.new ≡ known.old)) result }
{
    match front(pairs) {
        None => Ok(false),
        Some((pair, rest)) => {
            let changed = share(known, *pair)?;
            let more = round(known, rest)?;
            Ok(changed || more)
        }
    }
}

/// Gives the sort of one side to the other, and says whether there was one to give.
fn share(known: &mut [Option<SortId>], pair: Pair) -> Result<bool, SortFault>
    requires { IsWithin known.old pair }
    ensures { Answers
        (test (Sort pair.at wrong_sort)
        (Differ (sort_at known.old pair.left) (sort_at known.old pair.right)))
        (λ changed. (known.new ≡ after_pair known.old pair)
        × (changed ≡ false → known.new ≡ known.old)) result }
{
    match (known[pair.left], known[pair.right]) {
        (Some(sort), Some(other)) => {
            if sort.0 == other.0 {
                Ok(false)
            } else {
                Err(fault(pair.at, SortKind::WrongSort))
            }
        }
        (Some(sort), None) => {
            known[pair.right] = Some(sort);
            Ok(true)
        }
        (None, Some(sort)) => {
            known[pair.left] = Some(sort);
            Ok(true)
        }
        (None, None) => Ok(false),
    }
}
