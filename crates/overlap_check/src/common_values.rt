//! Values that two left sides match.

ghost use Rattle.std.specs.Prelude.{◌≡◌, ℕ, ◌++◌, IfOk, OnOk, Some, MatchOption, List, map};
ghost use Rattle.term_core.specs.Tree.{Tree, Trees, trees_of, app as application};
ghost use Rattle.spec_core.specs.Small.{AreSmall};
ghost use Rattle.spec_core.specs.Declarations.{IsDeclared};
ghost use Rattle.spec_core.specs.WellSorted.{RuleIsSorted, sorts_of};
ghost use Rattle.unifier.specs.Shifting.{shifted, HasTooLarge};
ghost use Rattle.overlap_check.specs.Overlaps.{HaveOverlap};
ghost use Rattle.overlap_check.specs.NamedValues.{sorts_of_both};
ghost use Rattle.overlap_check.specs.Searches.{AreCommonTo, HaveSorts};

use crate::clashes::clash;
use spec_core::{Rule, Signature, VarInfo};
use std::alloc::Global;
use substitutions::Subst;
use term_core::{OutOfMemory, Seq, Term, TermNode};
use unifier::{ShiftError, shift, unify};

/// The values that are named for the two left sides, if these are different and some values match
/// both. They are unified with their variables apart, since each rule has its own.
pub(crate) fn common_values(
    alloc: Global,
    sig: &Signature,
    first: &Rule,
    second: &Rule,
) -> Result<Option<Seq<Term>>, OutOfMemory>
    requires declared { IsDeclared sig.now }
    requires first { RuleIsSorted sig.now first.now }
    requires second { RuleIsSorted sig.now second.now }
    ensures { IfOk result (λ found. MatchOption found
        (HaveOverlap sig.now first.now.left second.now.left → ⊥)
        (λ values. AreCommonTo sig.now first.now second.now (trees_of values))) }
{
    if first.left.same(&second.left) || clash(&first.left, &second.left) {
        return Ok(None);
    }
    let apart = rename_apart(alloc, &second.left, first.vars.len() as u32)?;
    let Some(unifier) = unify(alloc, &first.left, &apart)? else {
        return Ok(None);
    };
    let smalls = small_values(alloc, sig, first, second)?;
    let unified = unifier.apply(alloc, &first.left)?;
    let call = smalls.apply(alloc, &unified)?;
    Ok(Some(arguments(call)?))
}

/// The term with `by` added to the number of each variable.
fn rename_apart(alloc: Global, term: &Term, by: u32) -> Result<Term, OutOfMemory>
    requires { HasTooLarge by term.now → ⊥ }
    ensures { IfOk result (λ made. made ≡ shifted by term.now) }
{
    match shift(alloc, term, by) {
        Ok(made) => Ok(made),
        Err(ShiftError::OutOfMemory) => Err(OutOfMemory),
        Err(ShiftError::TooLarge) => unreachable!(),
    }
}

/// The small values of the sorts of the variables of both rules, those of the second rule after
/// those of the first.
fn small_values(
    alloc: Global,
    sig: &Signature,
    first: &Rule,
    second: &Rule,
) -> Result<Subst, OutOfMemory>
    requires first { HaveSorts sig.now first.now.vars }
    requires second { HaveSorts sig.now second.now.vars }
    ensures { IfOk result (λ made. (xs : List Tree)
        × (made.terms ≡ map (λ x. Some x) xs)
        × AreSmall sig.now (sorts_of_both first.now second.now) (trees_of xs)) }
{
    let mut values = Seq::new(alloc);
    add_small_values(alloc, sig, first.vars.as_slice(), &mut values)?;
    add_small_values(alloc, sig, second.vars.as_slice(), &mut values)?;
    Ok(Subst { terms: values })
}

/// Appends the small values of the variables' sorts.
fn add_small_values(
    alloc: Global,
    sig: &Signature,
    vars: &[VarInfo],
    values: &mut Seq<Option<Term>>,
) -> Result<(), OutOfMemory>
    requires { HaveSorts sig.now vars.now }
    ensures { OnOk result ((xs : List Tree)
        × (values.new ≡ values.old ++ map (λ x. Some x) xs)
        × AreSmall sig.now (sorts_of vars.now) (trees_of xs)) }
{
    for var in vars {
        values.push(Some(sig.small(alloc, var.sort)?))?;
    }
    Ok(())
}

/// The arguments of a call.
fn arguments(call: Term) -> Result<Seq<Term>, OutOfMemory>
    requires { (f : ℕ) × (ts : Trees) × (call ≡ application f ts) }
    ensures { IfOk result (λ made. (f : ℕ) × (call ≡ application f (trees_of made))) }
{
    match call.node {
        TermNode::Var(_) => unreachable!(),
        TermNode::App(_, args) => Ok(Seq::from_vec(args.into_vec()?)),
    }
}
