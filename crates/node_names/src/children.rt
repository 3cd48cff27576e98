//! The names of a child, by those of its parent.

ghost use Rattle.std.specs.Prelude.{◌≡◌, IfOk, IfSome, length};
ghost use Rattle.node_names.specs.Names.{AreNames, goal_names};
ghost use Rattle.node_names.specs.Nodes.{KeepsGoalNames, NamesNode};
ghost use Rattle.node_names.specs.Settings.{HasStems};
ghost use Rattle.clause_core.specs.Tidied.{goal_clause};

use crate::brought::{Brought, brought_by, with_brought};
use crate::following::occurrences_before;
use crate::goals::{can_be_names, names_of_goal};
use crate::met::names_met;
use crate::names::{NodeNames, copy_names};
use crate::settings::Setting;
use clause_core::{Clause, Step};
use std::alloc::Global;
use term_core::{Name, OutOfMemory, Seq};

/// A child: its clause, its number among the children of its parent's step, from 0, and the clause
/// and the names of its parent.
#[derive(Drop)]
pub(crate) struct Child<'a> {
    pub(crate) clause: &'a Clause,
    pub(crate) step: &'a Step,
    pub(crate) index: usize,
    pub(crate) parent: &'a Clause,
    pub(crate) names: &'a [Name],
}

/// The names of the first node: the goal's, where they can be its names.
pub(crate) fn root_names(
    alloc: Global,
    setting: &Setting,
    clause: &Clause,
) -> Result<NodeNames, OutOfMemory>
    requires { HasStems setting.now }
    ensures names { IfOk result
        (NamesNode setting.now.spec.now setting.now.goal.now clause.now) }
    ensures kept { clause.now ≡ goal_clause setting.now.goal.now →
        IfOk result (KeepsGoalNames setting.now.spec.now setting.now.goal.now) }
{
    let own = names_of_goal(alloc, setting.goal)?;
    if own.len() == clause.ctx.len() && can_be_names(&setting.spec.sig, &own) {
        return Ok(NodeNames {
            variables: Seq::from_vec(own),
            pattern: Seq::new(alloc),
        });
    }
    names_by_sorts(alloc, setting, clause)
}

/// The names of a child: those of its parent's variables that it has, and names for those that the
/// step brings.
pub(crate) fn child_names(
    alloc: Global,
    setting: &Setting,
    child: &Child,
) -> Result<NodeNames, OutOfMemory>
    requires stems { HasStems setting.now }
    requires names { AreNames setting.now.spec.now setting.now.goal.now child.now.names.now }
    ensures { IfOk result
        (NamesNode setting.now.spec.now setting.now.goal.now child.now.clause.now) }
{
    let brought = brought_by(alloc, &setting.spec.sig, child)?;
    let names = with_brought(alloc, setting, child.names, &brought)?;
    let Some(variables) = followed(alloc, setting, child, &names)? else {
        return names_by_sorts(alloc, setting, child.clause);
    };
    let pattern = copy_names(alloc, &names[child.names.len()..])?;
    Ok(NodeNames {
        variables: Seq::from_vec(variables),
        pattern: Seq::from_vec(pattern),
    })
}

/// The names of the child's variables, of those that its parent's variables and the ones that the
/// step brings have; None where they can't be followed.
fn followed(
    alloc: Global,
    setting: &Setting,
    child: &Child,
    names: &[Name],
) -> Result<Option<Vec<Name>>, OutOfMemory>
    requires { AreNames setting.now.spec.now setting.now.goal.now names.now }
    ensures names { IfOk result (λ found. IfSome found (λ met.
        AreNames setting.now.spec.now setting.now.goal.now met.items)) }
    ensures each { IfOk result (λ found. IfSome found (λ met.
        length met.items ≡ length child.now.clause.now.ctx)) }
{
    let Some(occurrences) = occurrences_before(alloc, setting, child)? else {
        return Ok(None);
    };
    let Some(met) = names_met(alloc, names, &occurrences)? else {
        return Ok(None);
    };
    if met.len() != child.clause.ctx.len() {
        return Ok(None);
    }
    Ok(Some(met))
}

/// Names for the variables by their sorts alone.
pub(crate) fn names_by_sorts(
    alloc: Global,
    setting: &Setting,
    clause: &Clause,
) -> Result<NodeNames, OutOfMemory>
    requires { HasStems setting.now }
    ensures { IfOk result
        (NamesNode setting.now.spec.now setting.now.goal.now clause.now) }
{
    let brought = Brought {
        sorts: clause.ctx.as_slice().to_vec(alloc)?,
        split: None,
    };
    let names = with_brought(alloc, setting, &[], &brought)?;
    Ok(NodeNames {
        variables: Seq::from_vec(names),
        pattern: Seq::new(alloc),
    })
}
