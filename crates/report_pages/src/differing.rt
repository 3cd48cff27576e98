//! The first place at which two values differ.

ghost use Rattle.std.specs.Prelude.{◌≡◌, ◌≤◌, ◌+◌, [], IfOk, MatchOption, None, Some, length};
ghost use Rattle.term_core.specs.Tree.{trees_of};
ghost use Rattle.report_pages.specs.Differences.{difference as difference_of, difference_from};
ghost use Rattle.report_pages.specs.Differences.{HasFewBelow, HaveFewBelow, IsPushed};

use std::alloc::Global;
use term_core::{OutOfMemory, Term, TermNode, front};

/// The path to the first place at which the terms have different symbols.
pub(crate) fn difference(
    alloc: Global,
    left: &Term,
    right: &Term,
) -> Result<Option<Vec<u8>>, OutOfMemory>
    requires { HasFewBelow left.now }
    ensures { IfOk result (λ found. MatchOption found
        (difference_of left.now right.now ≡ None)
        (λ path. difference_of left.now right.now ≡ Some path.items)) }
{
    let mut path = Vec::new(alloc);
    if push_difference(left, right, &mut path)? {
        Ok(Some(path))
    } else {
        Ok(None)
    }
}

/// Adds the path to the first difference, and answers whether there is one.
#[cycle(differ)]
fn push_difference(left: &Term, right: &Term, path: &mut Vec<u8>) -> Result<bool, OutOfMemory>
    requires { HasFewBelow left.now }
    ensures { IfOk result (λ found. IsPushed path.old.items path.new.items
        (difference_of left.now right.now) found) }
{
    match (&left.node, &right.node) {
        (TermNode::Var(m), TermNode::Var(n)) => Ok(m.0 != n.0),
        (TermNode::App(f, lefts), TermNode::App(g, rights)) => {
            if f.0 == g.0 {
                push_difference_from(1, lefts.as_slice(), rights.as_slice(), path)
            } else {
                Ok(true)
            }
        }
        _ => Ok(true),
    }
}

/// The same for arguments, of which the first ones have this number.
#[cycle(differ)]
fn push_difference_from(
    number: u8,
    lefts: &[Term],
    rights: &[Term],
    path: &mut Vec<u8>,
) -> Result<bool, OutOfMemory>
    requires few { number + length lefts.now ≤ 255 }
    requires below { HaveFewBelow (trees_of lefts.now) }
    ensures { IfOk result (λ found. IsPushed path.old.items path.new.items
        (difference_from number (trees_of lefts.now) (trees_of rights.now)) found) }
{
    let (Some((left, lefts)), Some((right, rights))) = (front(lefts), front(rights)) else {
        return Ok(false);
    };
    path.push(number)?;
    if push_difference(left, right, path)? {
        return Ok(true);
    }
    path.pop();
    push_difference_from(number + 1, lefts, rights, path)
}
