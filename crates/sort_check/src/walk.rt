//! A term of a part of a declaration, word by word.

ghost use Rattle.std.specs.Prelude.{◌≡◌, ◌≤◌, ◌<◌, Some, None, IfOk, OnOk, length, option_map};
ghost use Rattle.term_core.specs.Tree.{trees_of};
ghost use Rattle.spec_grammar.specs.RawTree.{raw_trees};
ghost use Rattle.sort_check.specs.Answers.{Answers};
ghost use Rattle.spec_core.specs.Findings.{test};
ghost use Rattle.sort_check.specs.Entries.{Differ, entry_named, given, sort_so_far, with_variable};
ghost use Rattle.sort_check.specs.Parts.{arguments_of};
ghost use Rattle.sort_check.specs.declared.faults.SortFault.TheVariants.{Sort};
ghost use Rattle.sort_check.specs.declared.faults.SortKind.TheVariants.{WrongSort as wrong_sort};
ghost use Rattle.sort_check.specs.Words.{variable_tests, symbol_tests, term_tests, terms_tests};
ghost use Rattle.sort_check.specs.Words.{entries_after, entries_after_all};
ghost use Rattle.sort_check.specs.Over.{IsOver, AreOverBehind};

use crate::entries::{Entry, add, place_of};
use crate::faults::{Part, SortFault, SortKind, fault};
use crate::limits::VARIABLES;
use spec_core::Signature;
use spec_grammar::RawTerm;
use std::alloc::Global;
use term_core::{Name, SortId, SymId, Term, Terms, VarId, front};

/// A walk over the terms of one part of a declaration.
#[derive(Clone, Copy)]
pub(crate) struct Walk<'a> {
    pub(crate) alloc: Global,
    pub(crate) sig: &'a Signature,
    pub(crate) part: Part,
}

impl<'a> Walk<'a> {
    /// The term that a raw one stands for, at a place that may have a sort. A root of another sort
    /// is a fault of the kind `wrong`.
    #[cycle(walk)]
    pub(crate) fn term(
        &self,
        entries: &mut Vec<Entry>,
        wrong: SortKind,
        raw: &RawTerm,
        place: Option<SortId>,
    ) -> Result<Term, SortFault>
        requires few { length entries.old.items ≤ 16 }
        ensures few { OnOk result (length entries.new.items ≤ 16) }
        ensures answer { Answers
            (term_tests self.now.sig.now self.now.part entries.old.items wrong raw.now place)
            (λ t. (entries.new.items
            ≡ entries_after self.now.sig.now entries.old.items raw.now place)
            × IsOver self.now.sig.now entries.new.items raw.now t) result }
    {
        match self.sig.symbol(raw.name.as_bytes()) {
            None => {
                if raw.args.len() != 0 {
                    return Err(fault(raw.at, SortKind::UnknownName));
                }
                let var = self.variable(entries, wrong, &raw.name, raw.at, place)?;
                Ok(Term::var(var))
            }
            Some(sym) => {
                self.check_symbol(wrong, raw.at, sym, raw.args.len(), place)?;
                let sorts = self.sig.info(sym).args.as_slice();
                let mut made = Terms::with_capacity(self.alloc, raw.args.len())?;
                self.terms(entries, raw.args.as_slice(), sorts, &mut made)?;
                Ok(Term::app(sym, made))
            }
        }
    }

    /// The terms that raw ones stand for, at places of these sorts, after those that are made.
    #[cycle(walk)]
    pub(crate) fn terms(
        &self,
        entries: &mut Vec<Entry>,
        raws: &[RawTerm],
        sorts: &[SortId],
        made: &mut Terms,
    ) -> Result<(), SortFault>
        requires few { length entries.old.items ≤ 16 }
        requires long { length raws.now ≡ length sorts.now }
        ensures few { OnOk result (length entries.new.items ≤ 16) }
        ensures answer { Answers
            (terms_tests self.now.sig.now self.now.part entries.old.items (raw_trees raws.now)
            sorts.now)
            (λ _. (entries.new.items
            ≡ entries_after_all self.now.sig.now entries.old.items (raw_trees raws.now)
            sorts.now)
            × AreOverBehind self.now.sig.now entries.new.items (raw_trees raws.now) made.old
            made.new) result }
    {
        let first = front(raws);
        let other = front(sorts);
        match (first, other) {
            (Some((raw, raws)), Some((sort, sorts))) => {
                let term = self.term(entries, SortKind::WrongSort, raw, Some(*sort))?;
                made.push(term)?;
                self.terms(entries, raws, sorts, made)
            }
            _ => Ok(()),
        }
    }

    /// The number of a word that is a variable.
    fn variable(
        &self,
        entries: &mut Vec<Entry>,
        wrong: SortKind,
        name: &Name,
        at: usize,
        place: Option<SortId>,
    ) -> Result<VarId, SortFault>
        requires few { length entries.old.items ≤ 16 }
        ensures few { OnOk result (length entries.new.items ≤ 16) }
        ensures answer { Answers
            (variable_tests self.now.part entries.old.items wrong at place
            (entry_named entries.old.items name.now))
            (λ v. (entries.new.items
            ≡ with_variable entries.old.items name.now at place
            (entry_named entries.old.items name.now))
            × (entry_named entries.new.items name.now ≡ Some v.0)) result }
    {
        match place_of(entries, name.as_bytes()) {
            Some(number) => {
                self.known_variable(entries, wrong, number, at, place)?;
                Ok(VarId(number as u32))
            }
            None => self.new_variable(entries, name, at, place),
        }
    }

    /// Tests a variable that is known, and gives it the sort of its place if it has none.
    fn known_variable(
        &self,
        entries: &mut Vec<Entry>,
        wrong: SortKind,
        number: usize,
        at: usize,
        place: Option<SortId>,
    ) -> Result<(), SortFault>
        requires { number < length entries.old.items }
        ensures { Answers
            (test (Sort at wrong) (Differ (sort_so_far entries.old.items number) place))
            (λ _. entries.new.items
            ≡ given entries.old.items number place (sort_so_far entries.old.items number))
            result }
    {
        match (entries[number].sort, place) {
            (Some(sort), Some(other)) if sort.0 != other.0 => Err(fault(at, wrong)),
            (None, Some(sort)) => {
                entries[number].sort = Some(sort);
                Ok(())
            }
            _ => Ok(()),
        }
    }

    /// Adds a variable if the part may have new ones.
    fn new_variable(
        &self,
        entries: &mut Vec<Entry>,
        name: &Name,
        at: usize,
        place: Option<SortId>,
    ) -> Result<VarId, SortFault>
        requires { length entries.old.items ≤ 16 }
        ensures few { OnOk result (length entries.new.items ≤ 16) }
        ensures answer { Answers
            (variable_tests self.now.part entries.old.items wrong_sort at place None)
            (λ v. (entries.new.items ≡ with_variable entries.old.items name.now at place None)
            × (v.0 ≡ length entries.old.items)) result }
    {
        match self.part {
            Part::Right => Err(fault(at, SortKind::NotOnTheLeft)),
            Part::Ground => Err(fault(at, SortKind::UnknownName)),
            Part::Left | Part::Goal => {
                let number = entries.len();
                if number >= VARIABLES {
                    return Err(fault(at, SortKind::TooManyVariables));
                }
                let name = name.copy(self.alloc)?;
                let sort = place;
                add(entries, Entry { name, at, sort })?;
                Ok(VarId(number as u32))
            }
        }
    }

    /// Tests a symbol before this many arguments.
    fn check_symbol(
        &self,
        wrong: SortKind,
        at: usize,
        sym: SymId,
        count: usize,
        place: Option<SortId>,
    ) -> Result<(), SortFault>
        requires { sym.0 < length self.now.sig.now.table }
        ensures { Answers (symbol_tests self.now.sig.now self.now.part wrong at sym.0 count place)
            (λ _. Unit {0}) result }
    {
        if self.part == Part::Left && !self.sig.is_constructor(sym) {
            return Err(fault(at, SortKind::DefinedInPattern));
        }
        let info = self.sig.info(sym);
        if count != info.args.len() {
            return Err(fault(at, SortKind::WrongNumberOfArguments));
        }
        match place {
            Some(sort) if info.result.0 != sort.0 => Err(fault(at, wrong)),
            _ => Ok(()),
        }
    }
}

/// The arguments of a word.
pub(crate) fn arguments(raw: &RawTerm) -> &[RawTerm]
    ensures { raw_trees result.now ≡ arguments_of raw.now }
{
    raw.args.as_slice()
}
