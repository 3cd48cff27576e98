//! `elaborate` and `elaborate_term`: a whole specification, and a term by itself.

ghost use Rattle.std.specs.Prelude.{◌≡◌, ℕ, [], IfOk, Ok, Err};
ghost use Rattle.term_core.specs.Tree.{Tree};
ghost use Rattle.term_core.specs.declared.ids.SortId.{SortId};
ghost use Rattle.spec_core.specs.declared.records.Spec.{Spec};
ghost use Rattle.spec_core.specs.Sorts.{Sorted};
ghost use Rattle.spec_core.specs.WellSorted.{IsWellSorted};
ghost use Rattle.spec_grammar.specs.KeepsLimits.{KeepsLimits};
ghost use Rattle.sort_check.specs.Answers.{Answers, IsUnlessNoMemory};
ghost use Rattle.sort_check.specs.Counted.{HasFewDeclarations};
ghost use Rattle.sort_check.specs.FirstFault.{spec_tests, ground_tests, HasFirstFault};
ghost use Rattle.sort_check.specs.FirstFault.{TermHasFirstFault};
ghost use Rattle.sort_check.specs.StandsFor.{IsNumbered, StandsFor, TermStandsFor};
ghost use Rattle.sort_check.specs.Terms.{TermStands};
ghost use Rattle.sort_check.specs.declared.faults.SortKind.{SortKind};
ghost use Rattle.sort_check.specs.declared.faults.SortFault.TheVariants.{Sort};

use crate::declarations::signature_of;
use crate::faults::{Part, SortFault, SortKind};
use crate::goals::goals_of;
use crate::limits::rules_of_one;
use crate::orders::order_of;
use crate::rules::rules_of;
use crate::walk::Walk;
use spec_core::{Signature, Spec};
use spec_grammar::{RawSpec, RawTerm};
use std::alloc::Global;
use term_core::Term;

/// The specification that a raw one stands for, or the first of its faults: declarations come
/// before the lines that give an order, these before rules, and rules before goals. It is well
/// sorted if the raw one keeps the limits of the grammar, as each one that a text derives does.
/// A symbol of more than 255 arguments is answered as want of memory.
pub fn elaborate(alloc: Global, raw: &RawSpec) -> Result<Spec, SortFault>
    requires few { HasFewDeclarations raw.now }
    ensures stands { IfOk result (StandsFor raw.now) }
    ensures answered { (spec : Spec) → StandsFor raw.now spec → IsUnlessNoMemory result (Ok spec) }
    ensures sorted { IfOk result (λ spec. KeepsLimits raw.now → IsWellSorted spec) }
    ensures fault { (at : ℕ) (kind : SortKind) → result ≡ Err (Sort at kind)
        → HasFirstFault raw.now at kind }
    ensures exact { (at : ℕ) (kind : SortKind) → HasFirstFault raw.now at kind
        → IsUnlessNoMemory result (Err (Sort at kind)) }
{
    spec_of(alloc, raw)
}

/// The term without variables that a raw one stands for over a signature, or the first of its
/// faults. A word alone that is no symbol is an unknown name.
pub fn elaborate_term(alloc: Global, sig: &Signature, raw: &RawTerm) -> Result<Term, SortFault>
    ensures stands { IfOk result (TermStandsFor sig.now raw.now) }
    ensures answered { (t : Tree) → TermStandsFor sig.now raw.now t
        → IsUnlessNoMemory result (Ok t) }
    ensures sorted { IfOk result (λ t. (s : SortId) × Sorted sig.now [] t s) }
    ensures fault { (at : ℕ) (kind : SortKind) → result ≡ Err (Sort at kind)
        → TermHasFirstFault sig.now raw.now at kind }
    ensures exact { (at : ℕ) (kind : SortKind) → TermHasFirstFault sig.now raw.now at kind
        → IsUnlessNoMemory result (Err (Sort at kind)) }
{
    sig.declared();
    ground_term(alloc, sig, raw)
}

fn spec_of(alloc: Global, raw: &RawSpec) -> Result<Spec, SortFault>
    requires few { HasFewDeclarations raw.now }
    ensures { Answers (spec_tests raw.now) (IsNumbered raw.now) result }
{
    let sig = signature_of(alloc, raw)?;
    let order = order_of(alloc, &sig, raw)?;
    let most = rules_of_one(raw.version);
    let rules = rules_of(alloc, &sig, most, raw.rules.as_slice())?;
    let goals = goals_of(alloc, &sig, raw.goals.as_slice())?;
    Ok(Spec {
        sig,
        order,
        rules,
        goals,
    })
}

fn ground_term(alloc: Global, sig: &Signature, raw: &RawTerm) -> Result<Term, SortFault>
    ensures { Answers (ground_tests sig.now raw.now)
        (λ t. TermStands sig.now [] raw.now t × ((s : SortId) × Sorted sig.now [] t s)) result }
{
    let walk = Walk {
        alloc,
        sig,
        part: Part::Ground,
    };
    walk.term(&mut Vec::new(alloc), SortKind::WrongSort, raw, None)
}
