//! Rules: their sides and guards.

ghost use Rattle.std.specs.Prelude.{◌≡◌, ◌≤◌, ◌<◌, [], IfOk, OnOk, length, min, replicate};
ghost use Rattle.std.specs.Prelude.{slice_index};
ghost use Rattle.std.specs.List.{AllByRecursion, AllZip};
ghost use Rattle.spec_core.specs.Findings.{each, each_after};
ghost use Rattle.spec_grammar.specs.RawTree.{raw_trees};
ghost use Rattle.spec_grammar.specs.Sizes.{words, words_all};
ghost use Rattle.sort_check.specs.Answers.{Answers};
ghost use Rattle.sort_check.specs.RuleTests.{guard_tests, rule_tests};
ghost use Rattle.sort_check.specs.Over.{IsGuardOver};
ghost use Rattle.sort_check.specs.Parts.{AreSorted, IsRoot, below_tests, counted_tests};
ghost use Rattle.sort_check.specs.Rules.{RuleStands};
ghost use Rattle.sort_check.specs.declared.faults.Part.TheVariants.{Right};

use crate::entries::Entry;
use crate::faults::{Part, SortFault, SortKind, fault};
use crate::limits::LEFT_SIZE;
use crate::variables::variables_of_rule;
use crate::walk::{Walk, arguments};
use spec_core::{Guard, Rule, Signature};
use spec_grammar::{RawGuard, RawRule, RawTerm};
use std::alloc::Global;
use term_core::{OutOfMemory, Seq, SortId, SymId, Term, Terms, front};

const BOOL: SortId = SortId(0);

/// The rules that raw ones stand for, in their order. A function may have `most` of them.
pub(crate) fn rules_of(
    alloc: Global,
    sig: &Signature,
    most: u32,
    raws: &[RawRule],
) -> Result<Seq<Rule>, SortFault>
    ensures { Answers (each_after (rule_tests sig.now most) [] raws.now)
        (λ rules. AllZip (RuleStands sig.now) raws.now rules) result }
{
    let mut counts = no_counts(alloc, sig)?;
    let mut made = Seq::new(alloc);
    for raw in raws {
        let sym = root(sig, most, &counts, &raw.left)?;
        made.push(rule_of(alloc, sig, sym, raw)?)?;
        counts[sym.0 as usize] += 1;
    }
    Ok(made)
}

/// No rule for each symbol.
fn no_counts(alloc: Global, sig: &Signature) -> Result<Vec<u32>, OutOfMemory>
    ensures { IfOk result (λ counts. counts.items ≡ replicate (length sig.now.table) 0) }
{
    let counts = Vec::from_elem(alloc, 0u32, sig.symbols() as usize)?;
    Ok(counts)
}

/// The function at the root of a left side, if this many rules of each symbol come before, fewer
/// than `most` of this one.
fn root(sig: &Signature, most: u32, counts: &[u32], raw: &RawTerm) -> Result<SymId, SortFault>
    requires { length counts.now ≡ length sig.now.table }
    ensures few { IfOk result (λ f. slice_index counts.now f.0 < most) }
    ensures root { Answers (counted_tests sig.now most counts.now raw.now)
        (λ f. IsRoot sig.now raw.now f.0) result }
{
    let Some(sym) = sig.symbol(raw.name.as_bytes()) else {
        let kind = if raw.args.len() == 0 {
            SortKind::NoFunction
        } else {
            SortKind::UnknownName
        };
        return Err(fault(raw.at, kind));
    };
    if sig.is_constructor(sym) {
        return Err(fault(raw.at, SortKind::NoFunction));
    }
    if counts[sym.0 as usize] >= most {
        return Err(fault(raw.at, SortKind::TooManyRules));
    }
    if size(raw, LEFT_SIZE + 1) > LEFT_SIZE {
        return Err(fault(raw.at, SortKind::LeftTooLarge));
    }
    if raw.args.len() != sig.info(sym).args.len() {
        return Err(fault(raw.at, SortKind::WrongNumberOfArguments));
    }
    Ok(sym)
}

/// The number of words, or `cap` if that is less.
#[cycle(size)]
fn size(raw: &RawTerm, cap: u32) -> u32
    ensures { result ≡ min (words raw.now) cap }
{
    if cap == 0 {
        return 0;
    }
    1 + size_all(raw.args.as_slice(), cap - 1)
}

#[cycle(size)]
fn size_all(raws: &[RawTerm], cap: u32) -> u32
    ensures { result ≡ min (words_all (raw_trees raws.now)) cap }
{
    match front(raws) {
        None => 0,
        Some((raw, rest)) => {
            let first = size(raw, cap);
            first + size_all(rest, cap - first)
        }
    }
}

/// The rule that a raw one with this function at its root stands for.
fn rule_of(alloc: Global, sig: &Signature, sym: SymId, raw: &RawRule) -> Result<Rule, SortFault>
    requires { IsRoot sig.now raw.now.left sym.0 }
    ensures { Answers (below_tests sig.now raw.now.left raw.now)
        (λ rule. RuleStands sig.now raw.now rule) result }
{
    let info = sig.info(sym);
    let mut entries = Vec::new(alloc);
    let raws = arguments(&raw.left);
    let mut args = Terms::with_capacity(alloc, raws.len())?;
    let left = Walk {
        alloc,
        sig,
        part: Part::Left,
    };
    left.terms(&mut entries, raws, info.args.as_slice(), &mut args)?;
    let walk = Walk {
        alloc,
        sig,
        part: Part::Right,
    };
    let right = walk.term(
        &mut entries,
        SortKind::WrongSort,
        &raw.right,
        Some(info.result),
    )?;
    let guards = walk.guards(&mut entries, raw.guards.as_slice())?;
    Ok(Rule {
        vars: variables_of_rule(alloc, &entries)?,
        left: Term::app(sym, args),
        right,
        guards,
    })
}

impl<'a> Walk<'a> {
    /// The guards that raw ones stand for, over variables that all have sorts.
    fn guards(&self, entries: &mut Vec<Entry>, raws: &[RawGuard]) -> Result<Seq<Guard>, SortFault>
        requires part { self.now.part ≡ Right }
        requires few { length entries.old.items ≤ 16 }
        requires sorted { AreSorted entries.old.items }
        ensures few { OnOk result (length entries.new.items ≤ 16) }
        ensures answer { Answers (each (guard_tests self.now.sig.now entries.old.items) raws.now)
            (λ guards. (entries.new.items ≡ entries.old.items)
            × AllZip (IsGuardOver self.now.sig.now entries.old.items) raws.now guards) result }
    {
        let mut made = Seq::new(self.alloc);
        for raw in raws {
            let test = self.term(entries, SortKind::GuardNotBool, &raw.test, Some(BOOL))?;
            let wanted = raw.wanted;
            made.push(Guard { test, wanted })?;
        }
        Ok(made)
    }
}
