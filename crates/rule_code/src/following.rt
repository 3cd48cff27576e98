//! Which rules go on after a test.

ghost use Rattle.std.specs.Prelude.{◌≡◌, ◌↔◌, ℕ, List, IfOk, IsTrue, length};
ghost use Rattle.term_core.specs.Tree.{Tree, app as application, trees_of};
ghost use Rattle.spec_core.specs.declared.records.Rule.{Rule as SpecRule};
ghost use Rattle.spec_core.specs.Gives.{boolean};
ghost use Rattle.rule_code.specs.Tests.{GoesOn};
ghost use Rattle.rule_code.specs.Branches.{IsFollowerOn, IsBranch, IsFollower, AreBranches};

use spec_core::{Guard, Rule};
use std::alloc::Global;
use term_core::{OutOfMemory, front};

/// The rules that go on if a rule's test is true, and if it is false.
#[derive(Clone, Copy)]
pub struct Branch {
    pub(crate) if_true: Option<usize>,
    pub(crate) if_false: Option<usize>,
}

impl Branch {
    /// The rule that goes on if the answer has this symbol and this many arguments.
    #[inline(always)]
    pub fn answered(&self, sym: u32, count: usize) -> Option<usize>
        ensures { (rules : List SpecRule) (rule : SpecRule) (k : ℕ) (args : List Tree)
            → IsBranch rules rule k self.now
            → count ≡ length args → IsFollowerOn rules rule k (application sym (trees_of args))
            result }
    {
        if count != 0 {
            None
        } else if sym == 0 {
            self.if_true
        } else if sym == 1 {
            self.if_false
        } else {
            None
        }
    }
}

/// For each of the rule's guards the rules that go on with the answers of its test.
pub(crate) fn find_branches(
    alloc: Global,
    rules: &[Rule],
    rule: &Rule,
) -> Result<Vec<Branch>, OutOfMemory>
    ensures { IfOk result (λ branches. AreBranches rules.now rule.now branches.items) }
{
    let count = rule.guards.len();
    let mut branches = Vec::with_capacity(alloc, count)?;
    for asked in 0..count {
        let if_true = find_follower(rules, rule, asked, true);
        let if_false = find_follower(rules, rule, asked, false);
        branches.push(Branch { if_true, if_false })?;
    }
    Ok(branches)
}

/// The first rule with the same left side that asks the rule's tests up to this one, wants the same
/// of those before and wants this answer of this one.
fn find_follower(rules: &[Rule], rule: &Rule, asked: usize, answer: bool) -> Option<usize>
    ensures { IsFollower rules.now rule.now asked answer result }
{
    for (number, other) in rules.iter().enumerate() {
        if other.left.same(&rule.left)
            && goes_on(
                rule.guards.as_slice(),
                other.guards.as_slice(),
                asked,
                answer,
            )
        {
            return Some(number);
        }
    }
    None
}

/// Whether both lists have the same tests up to number `asked`, want the same of those before, and
/// the second wants this answer of that one.
fn goes_on(guards: &[Guard], others: &[Guard], asked: usize, answer: bool) -> bool
    ensures { IsTrue result ↔ GoesOn asked (boolean answer) guards.now others.now }
{
    let first = front(guards);
    let second = front(others);
    match (first, second) {
        (Some((guard, guards)), Some((other, others))) => {
            if !guard.test.same(&other.test) {
                return false;
            }
            if asked == 0 {
                return answer == other.wanted;
            }
            guard.wanted == other.wanted && goes_on(guards, others, asked - 1, answer)
        }
        _ => false,
    }
}
