//! What stays the same during a search.

ghost use Rattle.std.specs.Prelude.{◌≡◌, IfOk};

use clause_core::{Clause, of_goal};
use spec_core::{RuleTable, Spec};
use std::alloc::Global;
use term_core::{Name, OutOfMemory};
use term_order::TermOrder;

/// What stays the same during a search: the specification and its order, the numbers of the lemmas
/// with these goals as clauses, and the rules by their functions.
#[derive(Drop)]
pub struct Setting<'a, O: TermOrder> {
    pub spec: &'a Spec,
    pub order: &'a O,
    pub numbers: &'a [u32],
    pub lemmas: Vec<Lemma>,
    pub rules: RuleTable,
}

/// A goal that is a lemma: its name and its tidied clause.
#[derive(Drop)]
pub struct Lemma {
    pub name: Name,
    pub clause: Clause,
}

impl<'a, O: TermOrder> Setting<'a, O> {
    pub fn new(
        alloc: Global,
        spec: &'a Spec,
        order: &'a O,
        numbers: &'a [u32],
    ) -> Result<Setting<'a, O>, OutOfMemory>
        ensures { IfOk result (λ made. made.spec.now ≡ spec.now) }
    {
        let lemmas = lemmas_of(alloc, spec, numbers)?;
        let rules = RuleTable::new(alloc, spec)?;
        Ok(Setting {
            spec,
            order,
            numbers,
            lemmas,
            rules,
        })
    }
}

/// The goals of these numbers, in the order of the specification.
fn lemmas_of(alloc: Global, spec: &Spec, numbers: &[u32]) -> Result<Vec<Lemma>, OutOfMemory> {
    let mut made = Vec::new(alloc);
    for (number, goal) in spec.goals.as_slice().iter().enumerate() {
        let Ok(number) = u32::try_from(number) else {
            break;
        };
        if !numbers.contains(&number) {
            continue;
        }
        let name = goal.name.copy(alloc)?;
        let clause = of_goal(alloc, goal)?;
        made.push(Lemma { name, clause })?;
    }
    Ok(made)
}
