//! Names for the variables that a step brings.

ghost use Rattle.std.specs.Prelude.{◌≡◌, ◌+◌, Contains, IfOk, IfSome, length};
ghost use Rattle.node_names.specs.Names.{AreNames, IsDerived, IsFree, stems_of};
ghost use Rattle.node_names.specs.Settings.{HasStems};

use crate::children::Child;
use crate::fresh::{fresh_name, primed_name};
use crate::names::{copy_names, name_at};
use crate::settings::Setting;
use crate::sorts::add_sorts;
use crate::stems::other_stem;
use clause_core::Step;
use spec_core::Signature;
use std::alloc::Global;
use term_core::{Name, OutOfMemory, SortId};

/// The sorts of the variables that a step brings, and the number and sort of the variable in whose
/// place they come.
#[derive(Drop)]
pub(crate) struct Brought {
    pub(crate) sorts: Vec<SortId>,
    pub(crate) split: Option<(u32, SortId)>,
}

/// The names of a node's variables, and after them names for those that a step brings.
pub(crate) fn with_brought(
    alloc: Global,
    setting: &Setting,
    names: &[Name],
    brought: &Brought,
) -> Result<Vec<Name>, OutOfMemory>
    requires stems { HasStems setting.now }
    requires names { AreNames setting.now.spec.now setting.now.goal.now names.now }
    ensures names { IfOk result (λ made.
        AreNames setting.now.spec.now setting.now.goal.now made.items) }
    ensures long { IfOk result (λ made.
        length made.items ≡ length names.now + length brought.now.sorts.items) }
{
    let mut made = copy_names(alloc, names)?;
    for sort in &brought.sorts {
        let name = brought_name(alloc, setting, &made, brought.split, *sort)?;
        made.push(name)?;
    }
    Ok(made)
}

/// A name for a variable of this sort that a step brings. One of the sort of the variable that is
/// split has its name with primes, another one the stem of the sort.
fn brought_name(
    alloc: Global,
    setting: &Setting,
    names: &[Name],
    split: Option<(u32, SortId)>,
    sort: SortId,
) -> Result<Name, OutOfMemory>
    requires stems { HasStems setting.now }
    requires names { AreNames setting.now.spec.now setting.now.goal.now names.now }
    ensures free { IfOk result (IsFree setting.now.spec.now.sig names.now) }
    ensures derived { IfOk result (IsDerived setting.now.spec.now setting.now.goal.now) }
{
    let sig = &setting.spec.sig;
    if let Some(name) = same_sort(names, split, sort) {
        if let Some(primed) = primed_name(alloc, sig, name.as_bytes(), names)? {
            return Ok(primed);
        }
    }
    fresh_name(alloc, sig, stem_of(setting, sort), names)
}

/// The name of the variable that is split, if it has this sort.
fn same_sort(names: &[Name], split: Option<(u32, SortId)>, sort: SortId) -> Option<&Name>
    ensures { IfSome result (λ name. Contains names.now name.now) }
{
    let (variable, own) = split?;
    if own != sort {
        return None;
    }
    name_at(names, variable)
}

/// The stem of the sort.
pub(crate) fn stem_of<'a>(setting: &'a Setting, sort: SortId) -> &'a [u8]
    requires { HasStems setting.now }
    ensures { Contains (stems_of setting.now.spec.now setting.now.goal.now) result.now }
{
    match name_at(&setting.stems, sort.0) {
        Some(stem) => stem.as_bytes(),
        None => other_stem(),
    }
}

/// The variables that the step brings to the child: those of the pattern for it, or the one that
/// is put for a term.
pub(crate) fn brought_by(
    alloc: Global,
    sig: &Signature,
    child: &Child,
) -> Result<Brought, OutOfMemory> {
    let ctx = child.parent.ctx.as_slice();
    let mut sorts = Vec::new(alloc);
    let mut split = None;
    match child.step {
        Step::Cover(variable, patterns) => {
            let pattern = patterns.as_slice().get(child.index);
            if let (Some(sort), Some(pattern)) = (ctx.get(variable.0 as usize), pattern) {
                add_sorts(sig, pattern, *sort, &mut sorts)?;
                split = Some((variable.0, *sort));
            }
        }
        Step::Generalize(term) => {
            if let Some(sort) = sig.sort_of(ctx, term) {
                sorts.push(sort)?;
            }
        }
        _ => {}
    }
    Ok(Brought { sorts, split })
}
