//! One use of a rule at the root.

ghost use Rattle.std.specs.Prelude.{◌≡◌, IfOk, List, Option};
ghost use Rattle.term_core.specs.Tree.{Tree};
ghost use Rattle.spec_core.specs.Sig.{Sig};
ghost use Rattle.spec_core.specs.WellSorted.{RuleIsSorted};
ghost use Rattle.substitutions.specs.Substitution.{apply};

use matching::matches;
use spec_core::Rule;
use std::alloc::Global;
use term_core::{OutOfMemory, Term};

/// What an instance of the rule's left side becomes by the rule.
pub(crate) fn rewrite(alloc: Global, rule: &Rule, term: &Term) -> Result<Term, OutOfMemory>
    requires sorted { (sig : Sig) × RuleIsSorted sig rule.now }
    requires fits { (s : List (Option Tree)) × (apply s rule.now.left ≡ term.now) }
    ensures { (s : List (Option Tree)) → apply s rule.now.left ≡ term.now
        → IfOk result (λ made. made ≡ apply s rule.now.right) }
{
    match matches(alloc, &rule.left, term)? {
        Some(theta) => theta.apply(alloc, &rule.right),
        None => unreachable!(),
    }
}
