//! The names from which others are made, by sort.

ghost use Rattle.std.specs.Prelude.{◌≡◌, ◌⊎◌, ℕ, List, All, Contains, IfOk, OnOk, codes, slice_set};
ghost use Rattle.spec_core.specs.TermText.{variable_names};
ghost use Rattle.node_names.specs.Names.{stems_of};

use spec_core::{Goal, Spec, VarInfo};
use std::alloc::Global;
use term_core::{Name, OutOfMemory};

/// The stem of a sort that no variable has.
pub(crate) fn other_stem() -> &'static [u8]
    ensures { result.now ≡ codes "v" }
{
    b"v"
}

/// For each sort the name of the first variable of it, in the rules and then in the goal.
pub(crate) fn stems(alloc: Global, spec: &Spec, goal: &Goal) -> Result<Vec<Name>, OutOfMemory>
    ensures { IfOk result (λ made. All (Contains (stems_of spec.now goal.now)) made.items) }
{
    let mut made = other_stems(alloc, spec.sig.sorts())?;
    for rule in spec.rules.as_slice() {
        name_sorts(alloc, rule.vars.as_slice(), &mut made)?;
    }
    name_sorts(alloc, goal.vars.as_slice(), &mut made)?;
    Ok(made)
}

/// As many stems of a sort that no variable has.
fn other_stems(alloc: Global, count: u32) -> Result<Vec<Name>, OutOfMemory>
    ensures { IfOk result (λ made. (known : List (List ℕ)) → Contains known (codes "v") →
        All (Contains known) made.items) }
{
    let mut made = Vec::new(alloc);
    for _ in 0..count {
        made.push(Name::of(alloc, other_stem())?)?;
    }
    Ok(made)
}

/// Gives each sort of a variable the first name of one, if it has none.
fn name_sorts(alloc: Global, vars: &[VarInfo], stems: &mut Vec<Name>) -> Result<(), OutOfMemory>
    ensures { (known : List (List ℕ)) → All (Contains known) stems.old.items →
        All (Contains known) (variable_names vars.now) →
        OnOk result (All (Contains known) stems.new.items) }
{
    for var in vars {
        name_sort(alloc, var, stems)?;
    }
    Ok(())
}

/// Gives the variable's sort its name, if it has none.
fn name_sort(alloc: Global, var: &VarInfo, stems: &mut Vec<Name>) -> Result<(), OutOfMemory>
    ensures { OnOk result ((stems.new.items ≡ stems.old.items)
        ⊎ (stems.new.items ≡ slice_set stems.old.items var.now.sort.0 var.now.name)) }
{
    let place = var.sort.0 as usize;
    if place >= stems.len() || stems[place].as_bytes() != other_stem() {
        return Ok(());
    }
    stems[place] = var.name.copy(alloc)?;
    Ok(())
}
