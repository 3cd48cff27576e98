//! `children`: what a step makes at a node.

ghost use Rattle.std.specs.Prelude.{◌≡◌, ◌<◌, ℕ, List, [], Some, IfOk, Contains, length, slice_get};
ghost use Rattle.term_core.specs.Tree.{Tree};
ghost use Rattle.spec_core.specs.WellSorted.{IsWellSorted};
ghost use Rattle.clause_core.specs.declared.clauses.Clause.{Clause as ClauseOf};
ghost use Rattle.clause_core.specs.Admitted.{IsAdmitted};
ghost use Rattle.clause_core.specs.Failing.{ClauseFails};
ghost use Rattle.clause_core.specs.Steps.{row_of};
ghost use Rattle.descent.specs.SortedChildren.{IsNode};
ghost use Rattle.descent.specs.Descent.{AreTrue, GoesOn};
ghost use Rattle.inference_rules.specs.Answers.{Answered, clauses_of};
ghost use Rattle.inference_rules.specs.Nodes.{AreNodes, clauses_made};

use crate::closing::{absurd_premise, match_premise, trivial};
use crate::covering::cover_variable;
use crate::generalizing::generalize;
use crate::making::counted;
use crate::nodes::{Node, Scope, StepError};
use crate::replacing::{context, hyp, lemma};
use crate::rewriting::{rewrite, rewrite_by_cases};
use crate::simplifying::{clash, decompose, drop_equation};
use crate::solving::solve;
use crate::subsuming::{by_lemma, subsume};
use clause_core::{Children, Clause, Step};
use descent::{children_are_sorted, steps_descend};
use spec_core::Spec;
use std::alloc::Global;
use term_order::TermOrder;

/// What the step makes at the node with this number, which counts from 0, by the table of steps.
/// The goals of the numbers `proved` may be used as lemmas. `Why` comes if and only if the step
/// isn't defined, with the first condition of its row that isn't met.
///
/// Each child can be a node. If the specification is admitted and the goals of `proved` are
/// true, a failing instance of the node's clause goes on to a child or to a node that is referred
/// to, and weighs there what the relation says.
pub fn children<O: TermOrder>(
    alloc: Global,
    spec: &Spec,
    order: &O,
    proved: &[u32],
    nodes: &[Node],
    node: u32,
    step: &Step,
) -> Result<Children, StepError>
    requires fine { IsWellSorted spec.now }
    requires in_range { node < length nodes.now }
    requires nodes { AreNodes spec.now.sig (clauses_of nodes.now) }
    ensures answered { (c : ClauseOf) → slice_get (clauses_of nodes.now) node ≡ Some c →
        Answered (O.above order.now) c (clauses_of nodes.now)
        (row_of spec.now (Contains proved.now) (clauses_of nodes.now) c step.now) result }
    ensures nodes { IfOk result (λ made. AreNodes spec.now.sig (clauses_made made)) }
    ensures descends { IfOk result (λ made. (c : ClauseOf) (values : List Tree) →
        slice_get (clauses_of nodes.now) node ≡ Some c →
        IsAdmitted (O.above order.now) spec.now → AreTrue spec.now proved.now →
        ClauseFails spec.now c values →
        GoesOn (O.rank order.now) spec.now (clauses_of nodes.now) c values made) }
{
    children_are_sorted(order);
    steps_descend(order);
    let here = &nodes[node as usize].clause;
    let scope = Scope {
        alloc,
        spec,
        order,
        proved,
        nodes,
    };
    counted(nodes.len(), taken(&scope, here, step))
}

/// What the step makes of the clause here, where no other nodes are counted.
fn taken<O: TermOrder>(scope: &Scope<O>, here: &Clause, step: &Step) -> Result<Children, StepError>
    requires fine { IsWellSorted scope.now.spec.now }
    requires here { IsNode scope.now.spec.now.sig here.now }
    ensures { Answered (O.above scope.now.order.now) here.now []
        (row_of scope.now.spec.now (Contains scope.now.proved.now)
        (clauses_of scope.now.nodes.now) here.now step.now) result }
{
    let alloc = scope.alloc;
    let spec = scope.spec;
    match step {
        Step::Trivial(conclusion) => trivial(alloc, here, *conclusion),
        Step::Match(conclusion, premise) => match_premise(alloc, here, *conclusion, *premise),
        Step::Absurd(premise) => absurd_premise(alloc, spec, here, *premise),
        Step::Subsume(number, terms) => subsume(scope, here, *number, terms.as_slice()),
        Step::ByLemma(name, terms) => {
            by_lemma(alloc, spec, scope.proved, here, name, terms.as_slice())
        }
        Step::Rule(place, rule) => rewrite(alloc, spec, here, place, *rule),
        Step::Case(place, rule) => rewrite_by_cases(alloc, spec, here, place, *rule),
        Step::Decompose(conclusion, number) => decompose(alloc, spec, here, *conclusion, *number),
        Step::Clash(conclusion) => clash(alloc, spec, here, *conclusion),
        Step::Drop(conclusion, number) => drop_equation(alloc, here, *conclusion, *number),
        Step::Solve(premise) => solve(alloc, spec, here, *premise),
        Step::Cover(variable, patterns) => {
            cover_variable(alloc, spec, here, *variable, patterns.as_slice())
        }
        Step::Generalize(term) => generalize(alloc, spec, here, term),
        Step::Context(place, premise, left) => {
            context(alloc, scope.order, here, place, *premise, *left)
        }
        Step::Hyp(number, terms, place, left) => {
            hyp(scope, here, *number, terms.as_slice(), place, *left)
        }
        Step::Lemma(name, terms, place, left) => {
            lemma(scope, here, name, terms.as_slice(), place, *left)
        }
    }
}
