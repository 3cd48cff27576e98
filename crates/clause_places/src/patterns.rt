//! The variable at whose path a left side of a function has a constructor.

ghost use Rattle.std.specs.Prelude.{◌≡◌, [], Some, None, IfOk, MatchOption};
ghost use Rattle.term_core.specs.Tree.{trees_of};
ghost use Rattle.clause_places.specs.Asked.{is_call_of as is_call, constructor_at, variable_paths};
ghost use Rattle.clause_places.specs.Asked.{variable_paths_from};
ghost use Rattle.clause_places.specs.Demand.{IsFirst, left_sides_of, argument_at, arguments_at};
ghost use Rattle.clause_places.specs.Demand.{some_look_at, looked_at};

use spec_core::{Rule, Signature};
use std::alloc::Global;
use term_core::{OutOfMemory, SymId, Term, TermNode, TermRefs, VarId};

/// The left sides of the function's rules.
pub(crate) fn left_sides<'a>(
    alloc: Global,
    rules: &'a [Rule],
    function: SymId,
) -> Result<TermRefs<'a>, OutOfMemory>
    ensures { IfOk result (λ made. made ≡ left_sides_of rules.now function.0) }
{
    let mut made = TermRefs::new(alloc);
    for rule in rules {
        if is_call_of(&rule.left, function) {
            made.push(&rule.left)?;
        }
    }
    Ok(made)
}

fn is_call_of(term: &Term, function: SymId) -> bool
    ensures { result ≡ is_call function.0 term.now }
{
    match &term.node {
        TermNode::Var(_) => false,
        TermNode::App(sym, _) => sym.0 == function.0,
    }
}

/// The first variable of the terms, which are all arguments of one call, at whose path some
/// pattern has a constructor.
#[cycle(looking)]
pub(crate) fn looked_at_in_terms(
    alloc: Global,
    sig: &Signature,
    patterns: &TermRefs,
    terms: &[Term],
) -> Result<Option<VarId>, OutOfMemory>
    ensures { IfOk result (IsFirst (looked_at sig.now patterns.now
        (variable_paths_from 1 (trees_of terms.now)))) }
{
    for (index, term) in terms.iter().enumerate() {
        let below = arguments(alloc, patterns, index)?;
        if let Some(var) = looked_at_in_term(alloc, sig, &below, term)? {
            return Ok(Some(var));
        }
    }
    Ok(None)
}

/// The same in one term. If no pattern goes down, neither does this.
#[cycle(looking)]
fn looked_at_in_term(
    alloc: Global,
    sig: &Signature,
    patterns: &TermRefs,
    term: &Term,
) -> Result<Option<VarId>, OutOfMemory>
    ensures { IfOk result (IsFirst (looked_at sig.now patterns.now (variable_paths term.now))) }
{
    if patterns.as_slice().is_empty() {
        return Ok(None);
    }
    match &term.node {
        TermNode::Var(var) => {
            if some_have_constructors(sig, patterns) {
                Ok(Some(*var))
            } else {
                Ok(None)
            }
        }
        TermNode::App(_, args) => looked_at_in_terms(alloc, sig, patterns, args.as_slice()),
    }
}

/// Whether some pattern is a constructor's term.
fn some_have_constructors(sig: &Signature, patterns: &TermRefs) -> bool
    ensures { result ≡ some_look_at sig.now patterns.now [] }
{
    for pattern in patterns.as_slice() {
        if has_constructor(sig, *pattern) {
            return true;
        }
    }
    false
}

fn has_constructor(sig: &Signature, term: &Term) -> bool
    ensures { result ≡ constructor_at sig.now [] (Some term.now) }
{
    match &term.node {
        TermNode::Var(_) => false,
        TermNode::App(sym, _) => sym.0 < sig.constructors(),
    }
}

/// The arguments at this index, of those patterns that have one there.
fn arguments<'a>(
    alloc: Global,
    patterns: &TermRefs<'a>,
    index: usize,
) -> Result<TermRefs<'a>, OutOfMemory>
    ensures { IfOk result (λ made. made ≡ arguments_at index patterns.now) }
{
    let mut made = TermRefs::new(alloc);
    for pattern in patterns.as_slice() {
        if let Some(argument) = argument(*pattern, index) {
            made.push(argument)?;
        }
    }
    Ok(made)
}

fn argument(term: &Term, index: usize) -> Option<&Term>
    ensures { MatchOption result (argument_at index term.now ≡ None)
        (λ t. argument_at index term.now ≡ Some t.now) }
{
    match &term.node {
        TermNode::Var(_) => None,
        TermNode::App(_, args) => args.get(index),
    }
}
