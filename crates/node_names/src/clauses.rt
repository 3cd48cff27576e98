//! `clause_names`: names for the variables of a clause that stands alone.

ghost use Rattle.std.specs.Prelude.{◌≡◌, Contains, IfOk, IfSome, length};
ghost use Rattle.spec_core.specs.TermText.{variable_names};
ghost use Rattle.node_names.specs.Names.{AreNames, IsDerived, IsFree, stems_of};
ghost use Rattle.node_names.specs.Settings.{HasStems};

use crate::brought::stem_of;
use crate::fresh::{fresh_name, is_free, primed_name};
use crate::settings::Setting;
use crate::stems::stems;
use clause_core::Clause;
use spec_core::{Goal, Spec};
use std::alloc::Global;
use term_core::{Name, OutOfMemory, SortId};

/// Names for the variables of a clause by their sorts: first the goal's own names of the sort,
/// then the first of these with primes. A sort that no variable of the goal has takes the name of
/// a rule's variable in their place.
pub fn clause_names(
    alloc: Global,
    spec: &Spec,
    goal: &Goal,
    clause: &Clause,
) -> Result<Vec<Name>, OutOfMemory>
    ensures names { IfOk result (λ made. AreNames spec.now goal.now made.items) }
    ensures each { IfOk result (λ made. length made.items ≡ length clause.now.ctx) }
{
    let setting = Setting {
        spec,
        goal,
        nodes: &[],
        steps: &[],
        stems: stems(alloc, spec, goal)?,
    };
    let mut made = Vec::new(alloc);
    for sort in clause.ctx.as_slice() {
        let name = sort_name(alloc, &setting, &made, *sort)?;
        made.push(name)?;
    }
    Ok(made)
}

/// A name for one variable more of this sort.
fn sort_name(
    alloc: Global,
    setting: &Setting,
    names: &[Name],
    sort: SortId,
) -> Result<Name, OutOfMemory>
    requires { HasStems setting.now }
    ensures free { IfOk result (IsFree setting.now.spec.now.sig names.now) }
    ensures derived { IfOk result (IsDerived setting.now.spec.now setting.now.goal.now) }
{
    let sig = &setting.spec.sig;
    if let Some(own) = own_name(setting, names, sort) {
        return own.copy(alloc);
    }
    let stem = goal_stem(setting, sort);
    if !is_free(sig, names, stem) {
        if let Some(primed) = primed_name(alloc, sig, stem, names)? {
            return Ok(primed);
        }
    }
    fresh_name(alloc, sig, stem, names)
}

/// The first of the goal's own names of this sort that is free.
fn own_name<'a>(setting: &'a Setting, names: &[Name], sort: SortId) -> Option<&'a Name>
    ensures own { IfSome result (λ name.
        Contains (variable_names setting.now.goal.now.vars) name.now) }
    ensures free { IfSome result (λ name. IsFree setting.now.spec.now.sig names.now name.now) }
{
    for var in setting.goal.vars.as_slice() {
        if var.sort == sort && is_free(&setting.spec.sig, names, var.name.as_bytes()) {
            return Some(&var.name);
        }
    }
    None
}

/// The goal's first name of the sort, or the stem of the sort.
fn goal_stem<'a>(setting: &'a Setting, sort: SortId) -> &'a [u8]
    requires { HasStems setting.now }
    ensures { Contains (stems_of setting.now.spec.now setting.now.goal.now) result.now }
{
    match first_name(setting.goal, sort) {
        Some(name) => name.as_bytes(),
        None => stem_of(setting, sort),
    }
}

/// The name of the goal's first variable of this sort.
fn first_name(goal: &Goal, sort: SortId) -> Option<&Name>
    ensures { IfSome result (λ name. Contains (variable_names goal.now.vars) name.now) }
{
    for var in goal.vars.as_slice() {
        if var.sort == sort {
            return Some(&var.name);
        }
    }
    None
}
