//! A goal's equations, and the sorts of its variables.

ghost use Rattle.std.specs.Prelude.{◌≡◌, ◌≤◌, ◌++◌, IfOk, OnOk, length};
ghost use Rattle.std.specs.List.{AllByRecursion, AllZip};
ghost use Rattle.sort_check.specs.Answers.{Answers};
ghost use Rattle.sort_check.specs.GoalTests.{all_sides_tests, after_all_sides, sides_tests};
ghost use Rattle.sort_check.specs.GoalTests.{after_sides, all_opposite_tests, opposite_tests};
ghost use Rattle.sort_check.specs.GoalTests.{after_opposite, own_sort as sort_of_side};
ghost use Rattle.sort_check.specs.GoalTests.{wanted as wanted_sort, number_of as number_of_side};
ghost use Rattle.sort_check.specs.GoalTests.{pair_of as pair_of_sides, place_of as place_of_root};
ghost use Rattle.sort_check.specs.GoalTests.{pairs_in, sorts_tests, opposed_by, equations_of};
ghost use Rattle.sort_check.specs.Over.{IsEquationOver};
ghost use Rattle.sort_check.specs.Parts.{AreFound, inferred_variables};
ghost use Rattle.sort_check.specs.declared.faults.Part.TheVariants.{Goal};

use crate::entries::{Entry, Pair, place_of};
use crate::faults::{SortFault, SortKind};
use crate::rounds::infer;
use crate::variables::{known_sorts, sorted_variables};
use crate::walk::Walk;
use spec_core::{Equation, Signature, VarInfo};
use spec_grammar::{RawEq, RawGoal, RawTerm};
use term_core::{OutOfMemory, Seq, SortId};

/// The equations of a goal.
#[derive(Drop)]
pub(crate) struct Clause {
    pub(crate) premises: Seq<Equation>,
    pub(crate) conclusions: Seq<Equation>,
}

impl<'a> Walk<'a> {
    /// The equations of a goal over the variables that are bound, which leaves all its variables.
    pub(crate) fn clause(
        &self,
        entries: &mut Vec<Entry>,
        raw: &RawGoal,
    ) -> Result<Clause, SortFault>
        requires part { self.now.part ≡ Goal }
        requires few { length entries.old.items ≤ 16 }
        ensures few { OnOk result (length entries.new.items ≤ 16) }
        ensures answer { Answers
            (all_sides_tests self.now.sig.now entries.old.items (equations_of raw.now))
            (λ clause. (entries.new.items
            ≡ after_all_sides self.now.sig.now entries.old.items (equations_of raw.now))
            × AllZip (IsEquationOver self.now.sig.now entries.new.items) (equations_of raw.now)
            (clause.premises ++ clause.conclusions)
            × (length clause.premises ≡ length raw.now.premises)) result }
    {
        let premises = self.equations(entries, raw.premises.as_slice())?;
        let conclusions = self.equations(entries, raw.conclusions.as_slice())?;
        Ok(Clause {
            premises,
            conclusions,
        })
    }

    /// The equations that raw ones stand for, in their order.
    fn equations(
        &self,
        entries: &mut Vec<Entry>,
        raws: &[RawEq],
    ) -> Result<Seq<Equation>, SortFault>
        requires part { self.now.part ≡ Goal }
        requires few { length entries.old.items ≤ 16 }
        ensures few { OnOk result (length entries.new.items ≤ 16) }
        ensures answer { Answers (all_sides_tests self.now.sig.now entries.old.items raws.now)
            (λ made. (entries.new.items
            ≡ after_all_sides self.now.sig.now entries.old.items raws.now)
            × AllZip (IsEquationOver self.now.sig.now entries.new.items) raws.now made) result }
    {
        let mut made = Seq::new(self.alloc);
        for raw in raws {
            made.push(self.sides(entries, raw)?)?;
        }
        Ok(made)
    }

    /// The sides of an equation, of which the right one has to have the left one's sort if
    /// neither is a variable.
    fn sides(&self, entries: &mut Vec<Entry>, raw: &RawEq) -> Result<Equation, SortFault>
        requires part { self.now.part ≡ Goal }
        requires few { length entries.old.items ≤ 16 }
        ensures few { OnOk result (length entries.new.items ≤ 16) }
        ensures answer { Answers (sides_tests self.now.sig.now entries.old.items raw.now)
            (λ made. (entries.new.items ≡ after_sides self.now.sig.now entries.old.items raw.now)
            × IsEquationOver self.now.sig.now entries.new.items raw.now made) result }
    {
        let left = self.term(entries, SortKind::WrongSort, &raw.left, None)?;
        let place = wanted(
            own_sort(self.sig, &raw.left),
            own_sort(self.sig, &raw.right),
        );
        let right = self.term(entries, SortKind::WrongSort, &raw.right, place)?;
        Ok(Equation { left, right })
    }

    /// The variables of a goal with the sorts that its equations give them.
    pub(crate) fn variables(
        &self,
        entries: &mut Vec<Entry>,
        raw: &RawGoal,
    ) -> Result<Seq<VarInfo>, SortFault>
        requires part { self.now.part ≡ Goal }
        requires few { length entries.old.items ≤ 16 }
        requires found { AllByRecursion (AreFound self.now.sig.now entries.old.items)
            (equations_of raw.now) }
        ensures { Answers (sorts_tests self.now.sig.now entries.old.items (equations_of raw.now))
            (λ vars. vars
            ≡ inferred_variables self.now.sig.now entries.old.items (equations_of raw.now))
            result }
    {
        self.oppose_all(entries, raw)?;
        let pairs = self.pairs(entries, raw)?;
        let mut known = known_sorts(self.alloc, entries)?;
        infer(&mut known, &pairs)?;
        sorted_variables(self.alloc, entries, &known)
    }

    /// Gives each variable that is equated to a term the term's sort, in all equations of a goal.
    fn oppose_all(&self, entries: &mut Vec<Entry>, raw: &RawGoal) -> Result<(), SortFault>
        requires part { self.now.part ≡ Goal }
        requires few { length entries.old.items ≤ 16 }
        ensures few { OnOk result (length entries.new.items ≤ 16) }
        ensures answer { Answers
            (all_opposite_tests self.now.sig.now entries.old.items (equations_of raw.now))
            (λ _. entries.new.items
            ≡ opposed_by self.now.sig.now entries.old.items (equations_of raw.now)) result }
    {
        self.oppose(entries, raw.premises.as_slice())?;
        self.oppose(entries, raw.conclusions.as_slice())
    }

    fn oppose(&self, entries: &mut Vec<Entry>, raws: &[RawEq]) -> Result<(), SortFault>
        requires part { self.now.part ≡ Goal }
        requires few { length entries.old.items ≤ 16 }
        ensures few { OnOk result (length entries.new.items ≤ 16) }
        ensures answer { Answers (all_opposite_tests self.now.sig.now entries.old.items raws.now)
            (λ _. entries.new.items ≡ opposed_by self.now.sig.now entries.old.items raws.now)
            result }
    {
        for raw in raws {
            self.oppose_sides(entries, raw)?;
        }
        Ok(())
    }

    fn oppose_sides(&self, entries: &mut Vec<Entry>, raw: &RawEq) -> Result<(), SortFault>
        requires part { self.now.part ≡ Goal }
        requires few { length entries.old.items ≤ 16 }
        ensures few { OnOk result (length entries.new.items ≤ 16) }
        ensures answer { Answers (opposite_tests self.now.sig.now entries.old.items raw.now)
            (λ _. entries.new.items ≡ after_opposite self.now.sig.now entries.old.items raw.now)
            result }
    {
        let left = own_sort(self.sig, &raw.left);
        let right = own_sort(self.sig, &raw.right);
        match (left, right) {
            (Some(sort), None) => {
                self.term(entries, SortKind::WrongSort, &raw.right, Some(sort))?;
            }
            (None, Some(sort)) => {
                self.term(entries, SortKind::WrongSort, &raw.left, Some(sort))?;
            }
            _ => {}
        }
        Ok(())
    }

    /// The equations of two variables, by their numbers.
    fn pairs(&self, entries: &[Entry], raw: &RawGoal) -> Result<Vec<Pair>, OutOfMemory>
        ensures { IfOk result
            (λ pairs. pairs.items ≡ pairs_in self.now.sig.now entries.now (equations_of raw.now)) }
    {
        let mut pairs = Vec::new(self.alloc);
        self.add_pairs(entries, raw.premises.as_slice(), &mut pairs)?;
        self.add_pairs(entries, raw.conclusions.as_slice(), &mut pairs)?;
        Ok(pairs)
    }

    fn add_pairs(
        &self,
        entries: &[Entry],
        raws: &[RawEq],
        pairs: &mut Vec<Pair>,
    ) -> Result<(), OutOfMemory>
        ensures { OnOk result
            (pairs.new.items ≡ pairs.old.items ++ pairs_in self.now.sig.now entries.now raws.now) }
    {
        for raw in raws {
            let Some(pair) = pair_of(self.sig, entries, raw) else {
                continue;
            };
            pairs.push(pair)?;
        }
        Ok(())
    }
}

/// The equation if it is one of two variables, by their numbers.
fn pair_of(sig: &Signature, entries: &[Entry], raw: &RawEq) -> Option<Pair>
    ensures { result
        ≡ pair_of_sides sig.now entries.now raw.now (sort_of_side sig.now raw.now.left)
        (sort_of_side sig.now raw.now.right) }
{
    let left = own_sort(sig, &raw.left);
    let right = own_sort(sig, &raw.right);
    match (left, right) {
        (None, None) => Some(Pair {
            left: number_of(entries, &raw.left),
            right: number_of(entries, &raw.right),
            at: place(&raw.right),
        }),
        _ => None,
    }
}

/// The place of a term's root.
fn place(raw: &RawTerm) -> usize
    ensures { result ≡ place_of_root raw.now }
{
    raw.at
}

/// The sort of a side that is no variable.
fn own_sort(sig: &Signature, raw: &RawTerm) -> Option<SortId>
    ensures { result ≡ sort_of_side sig.now raw.now }
{
    match sig.symbol(raw.name.as_bytes()) {
        Some(sym) => Some(sig.info(sym).result),
        None => None,
    }
}

/// The sort that a right side has to have, by the sorts of both sides.
fn wanted(left: Option<SortId>, right: Option<SortId>) -> Option<SortId>
    ensures { result ≡ wanted_sort left right }
{
    match right {
        Some(_) => left,
        None => None,
    }
}

/// The number of a side that is a variable.
fn number_of(entries: &[Entry], raw: &RawTerm) -> usize
    ensures { result ≡ number_of_side entries.now raw.now }
{
    place_of(entries, raw.name.as_bytes()).unwrap_or(0)
}
