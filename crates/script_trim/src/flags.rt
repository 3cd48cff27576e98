//! Which nodes stay, and what flags keep of a vector.

ghost use Rattle.std.specs.Prelude.{◌≡◌, ◌≢◌, ◌↔◌, ◌++◌, ◌<◌, ◌^◌, List, Bool, Some, IfOk, OnOk};
ghost use Rattle.std.specs.Prelude.{IsTrue, length, replicate, slice_get, slice_set};
ghost use Rattle.acceptance.specs.AllowedAnswers.{IsWholeBlock};
ghost use Rattle.script_trim.specs.Cut.{renumbered, staying, RefersToStaying};
ghost use Rattle.script_trim.specs.Flags.{flag_of, AreInOrder, AreNewNumbers, TellStaying};

use clause_core::{Children, Step};
use std::alloc::Global;
use term_core::OutOfMemory;

/// Tells for each node whether it stays when the descendants of one node are taken out. Children
/// take the next free numbers, so their flags follow one after the other.
pub(crate) fn staying_nodes(
    alloc: Global,
    links: &[Children],
    node: usize,
) -> Result<Vec<bool>, OutOfMemory>
    requires whole { IsWholeBlock links.now }
    requires order { AreInOrder links.now }
    ensures { IfOk result (λ stays. TellStaying links.now node stays.items) }
{
    let mut stays = vec![in alloc; true]?;
    for number in 0..links.len() {
        let stay = children_stay(stays.as_slice(), number, node);
        append_flags(&mut stays, links[number].clauses.len(), stay)?;
    }
    Ok(stays)
}

/// Whether the children of a node stay when one node is closed.
fn children_stay(stays: &[bool], number: usize, closed: usize) -> bool
    requires { number < length stays.now }
    ensures { IsTrue result ↔ ((number ≢ closed) × IsTrue (flag_of stays.now number)) }
{
    number != closed && stays[number]
}

/// Appends the flag this many times.
fn append_flags(flags: &mut Vec<bool>, count: usize, flag: bool) -> Result<(), OutOfMemory>
    ensures { OnOk result (flags.new.items ≡ flags.old.items ++ replicate count flag) }
{
    for _number in 0..count {
        flags.push(flag)?;
    }
    Ok(())
}

/// The items of the nodes that stay.
pub(crate) fn keep<T: Drop>(
    alloc: Global,
    items: Vec<T>,
    stays: &[bool],
) -> Result<Vec<T>, OutOfMemory>
    requires { length items.items ≡ length stays.now }
    ensures { IfOk result (λ kept. kept.items ≡ staying (flag_of stays.now) 0 items.items) }
{
    let mut kept = Vec::new(alloc);
    for (item, stay) in items.into_iter().zip(stays) {
        if *stay {
            kept.push(item)?;
        }
    }
    Ok(kept)
}

/// The number that each node gets: how many nodes before it stay.
pub(crate) fn new_numbers(alloc: Global, stays: &[bool]) -> Result<Vec<u32>, OutOfMemory>
    requires { length stays.now < 2 ^ 32 }
    ensures { IfOk result (λ numbers. AreNewNumbers stays.now numbers.items) }
{
    let mut numbers = Vec::with_capacity(alloc, stays.len())?;
    let mut before = 0u32;
    for stay in stays {
        numbers.push(before)?;
        if *stay {
            before += 1;
        }
    }
    Ok(numbers)
}

/// The item with this number, after the other one has replaced the item at the place.
pub(crate) fn with_other<'a, T>(items: &'a [T], place: usize, other: &'a T, number: usize) -> &'a T
    requires { number < length items.now }
    ensures { slice_get (slice_set items.now place other.now) number ≡ Some result.now }
{
    if number == place {
        other
    } else {
        &items[number]
    }
}

/// Whether the node that the step refers to stays, if it refers to one.
pub(crate) fn refers_to_staying(step: &Step, stays: &[bool]) -> bool
    ensures { IsTrue result ↔ RefersToStaying (flag_of stays.now) step.now }
{
    match step {
        Step::Subsume(node, _) => is_set(stays, *node),
        Step::Hyp(node, _, _, _) => is_set(stays, *node),
        _ => true,
    }
}

/// Whether there is a flag with this number, and it is set.
fn is_set(flags: &[bool], number: u32) -> bool
    ensures { result ≡ flag_of flags.now number }
{
    let number = number as usize;
    number < flags.len() && flags[number]
}

/// The step with the node that it refers to under its new number.
pub(crate) fn with_new_number(step: Step, stays: &[bool], numbers: &[u32]) -> Step
    requires numbers { AreNewNumbers stays.now numbers.now }
    requires refers { RefersToStaying (flag_of stays.now) step }
    ensures { result ≡ renumbered (flag_of stays.now) step }
{
    match step {
        Step::Subsume(node, terms) => Step::Subsume(numbers[node as usize], terms),
        Step::Hyp(node, terms, place, left) => {
            Step::Hyp(numbers[node as usize], terms, place, left)
        }
        other => other,
    }
}
