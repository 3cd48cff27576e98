//! Variables with the sorts that were found.

ghost use Rattle.std.specs.Prelude.{◌≡◌, IfOk, length};
ghost use Rattle.spec_core.specs.Findings.{nothing};
ghost use Rattle.sort_check.specs.Answers.{Answers};
ghost use Rattle.sort_check.specs.Entries.{known_sorts as sorts_known};
ghost use Rattle.sort_check.specs.GoalTests.{inferred_tests};
ghost use Rattle.sort_check.specs.Over.{variables_of};
ghost use Rattle.sort_check.specs.Parts.{AreSorted};

use crate::entries::Entry;
use crate::faults::{SortFault, SortKind, fault};
use spec_core::VarInfo;
use std::alloc::Global;
use term_core::{OutOfMemory, Seq, SortId};

/// The variables with these sorts, or the first one that has none.
pub(crate) fn sorted_variables(
    alloc: Global,
    entries: &[Entry],
    known: &[Option<SortId>],
) -> Result<Seq<VarInfo>, SortFault>
    requires { length known.now ≡ length entries.now }
    ensures { Answers (inferred_tests entries.now known.now)
        (λ vars. vars ≡ variables_of entries.now known.now) result }
{
    let mut vars = Seq::new(alloc);
    for (place, entry) in entries.iter().enumerate() {
        let Some(sort) = known[place] else {
            return Err(fault(entry.at, SortKind::SortNotInferred));
        };
        let name = entry.name.copy(alloc)?;
        vars.push(VarInfo { name, sort })?;
    }
    Ok(vars)
}

/// The variables of a rule, each of which has a sort.
pub(crate) fn variables_of_rule(alloc: Global, entries: &[Entry]) -> Result<Seq<VarInfo>, SortFault>
    requires { AreSorted entries.now }
    ensures { Answers nothing (λ vars. vars ≡ variables_of entries.now (sorts_known entries.now))
        result }
{
    let known = known_sorts(alloc, entries)?;
    sorted_variables(alloc, entries, &known)
}

/// The sorts that are known of the variables.
pub(crate) fn known_sorts(
    alloc: Global,
    entries: &[Entry],
) -> Result<Vec<Option<SortId>>, OutOfMemory>
    ensures { IfOk result (λ known. known.items ≡ sorts_known entries.now) }
{
    let known = entries.iter().map(|entry| entry.sort).collect(alloc)?;
    Ok(known)
}
