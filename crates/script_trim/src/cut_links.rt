//! The links of a block that is cut, and whether they are allowed.

ghost use Rattle.std.specs.Prelude.{◌≡◌, ◌↔◌, ℕ, ◌<◌, List, Bool, Some};
ghost use Rattle.std.specs.Prelude.{IfOk, IsTrue, length, map, slice_get};
ghost use Rattle.clause_core.specs.declared.answers.Child.{Child as ChildOf};
ghost use Rattle.clause_core.specs.declared.answers.Children.{Children as ChildrenOf};
ghost use Rattle.clause_core.specs.declared.answers.Reference.{Reference as ReferenceOf};
ghost use Rattle.clause_core.specs.declared.clauses.Relation.TheVariants.{Less as less};
ghost use Rattle.clause_core.specs.declared.clauses.Relation.TheVariants.{Same as same};
ghost use Rattle.acceptance.specs.AllowedAnswers.{IsWholeBlock};
ghost use Rattle.block_links.specs.Links.{links_of, without_sides};
ghost use Rattle.script_trim.specs.Cutting.{TellsAllowed};
ghost use Rattle.script_trim.specs.Fitting.{RefersToItself};
ghost use Rattle.script_trim.specs.Flags.{flag_of, AreNewNumbers, RefersWithin};
ghost use Rattle.script_trim.specs.Made.{cut_made, made_renumbered, reference_renumbered};

use crate::flags::with_other;
use acceptance::{Allowed, allowed};
use block_links::clause_without_sides;
use clause_core::{Child, Children, Reference, Relation};
use std::alloc::Global;
use term_core::{OutOfMemory, Seq};

/// The links of the nodes that stay, when the step that closes the node makes `closed`. References
/// have the new numbers of their nodes.
pub(crate) fn cut_links(
    alloc: Global,
    links: &[Children],
    node: usize,
    closed: &Children,
    stays: &[bool],
    numbers: &[u32],
) -> Result<Vec<Children>, OutOfMemory>
    requires long { length links.now ≡ length stays.now }
    requires numbers { AreNewNumbers stays.now numbers.now }
    requires refs { (k : ℕ) (m : ChildrenOf) → slice_get links.now k ≡ Some m →
        RefersWithin (length links.now) m }
    requires closed { RefersWithin (length links.now) closed.now }
    ensures { IfOk result (λ cut. cut.items
        ≡ map links_of (cut_made (flag_of stays.now) links.now node closed.now)) }
{
    let mut cut = Vec::new(alloc);
    for number in 0..links.len() {
        if !stays[number] {
            continue;
        }
        let link = with_other(links, node, closed, number);
        cut.push(renumbered_links(alloc, link, stays, numbers)?)?;
    }
    Ok(cut)
}

/// The links of one node, with the new numbers of the nodes that it refers to.
fn renumbered_links(
    alloc: Global,
    links: &Children,
    stays: &[bool],
    numbers: &[u32],
) -> Result<Children, OutOfMemory>
    requires numbers { AreNewNumbers stays.now numbers.now }
    requires refs { RefersWithin (length stays.now) links.now }
    ensures { IfOk result (λ copy.
        copy ≡ links_of (made_renumbered (flag_of stays.now) links.now)) }
{
    Ok(Children {
        clauses: relations(alloc, links.clauses.as_slice())?,
        refs: renumbered_references(alloc, links.refs.as_slice(), stays, numbers)?,
    })
}

/// The relations of the children, without their clauses.
fn relations(alloc: Global, children: &[Child]) -> Result<Seq<Child>, OutOfMemory>
    ensures { IfOk result (λ copies. copies ≡ map (λ (d : ChildOf).
        record { clause = without_sides; relation = d.relation }) children.now) }
{
    let mut copies = Vec::with_capacity(alloc, children.len())?;
    for child in children {
        copies.push(Child {
            clause: clause_without_sides(alloc),
            relation: child.relation,
        })?;
    }
    Ok(Seq::from_vec(copies))
}

/// The references, with the new numbers of their nodes.
fn renumbered_references(
    alloc: Global,
    refs: &[Reference],
    stays: &[bool],
    numbers: &[u32],
) -> Result<Seq<Reference>, OutOfMemory>
    requires numbers { AreNewNumbers stays.now numbers.now }
    requires refs { (a : ℕ) (r : ReferenceOf) → slice_get refs.now a ≡ Some r →
        r.node < length stays.now }
    ensures { IfOk result (λ copies.
        copies ≡ map (reference_renumbered (flag_of stays.now)) refs.now) }
{
    let mut copies = Vec::with_capacity(alloc, refs.len())?;
    for reference in refs {
        copies.push(Reference {
            node: numbers[reference.node as usize],
            relation: reference.relation,
        })?;
    }
    Ok(Seq::from_vec(copies))
}

/// Whether the links that are left allow everything. They do if each reference of the step that
/// closes the node is Less, so nothing is computed then.
pub(crate) fn are_allowed(
    alloc: Global,
    links: &[Children],
    node: usize,
    closed: &Children,
    stays: &[bool],
    numbers: &[u32],
) -> Result<bool, OutOfMemory>
    requires long { length links.now ≡ length stays.now }
    requires numbers { AreNewNumbers stays.now numbers.now }
    requires refs { (k : ℕ) (m : ChildrenOf) → slice_get links.now k ≡ Some m →
        RefersWithin (length links.now) m }
    requires closed { RefersWithin (length links.now) closed.now }
    requires whole { IsWholeBlock
        (map links_of (cut_made (flag_of stays.now) links.now node closed.now)) }
    ensures { IfOk result (TellsAllowed (flag_of stays.now) links.now node closed.now) }
{
    if refers_to_less(closed) {
        return Ok(true);
    }
    let left = cut_links(alloc, links, node, closed, stays, numbers)?;
    let left = left.as_slice();
    match allowed(alloc, left)? {
        Allowed::All => Ok(true),
        Allowed::Not { .. } => Ok(false),
    }
}

/// Whether one of these references of the node is to the node itself, with the same sides. That is
/// never allowed, whatever is cut.
pub(crate) fn refers_to_itself(refs: &[Reference], node: usize) -> bool
    ensures { IsTrue result → RefersToItself node refs.now }
{
    for reference in refs {
        if is_same(reference, node) {
            return true;
        }
    }
    false
}

/// Whether the reference is to this node and Same.
fn is_same(reference: &Reference, node: usize) -> bool
    ensures { IsTrue result ↔ ((reference.now.node ≡ node) × (reference.now.relation ≡ same)) }
{
    reference.node as usize == node && reference.relation == Relation::Same
}

/// Whether each reference is Less.
fn refers_to_less(made: &Children) -> bool
    ensures { IsTrue result ↔ ((a : ℕ) (r : ReferenceOf) → slice_get made.now.refs a ≡ Some r →
        r.relation ≡ less) }
{
    for reference in made.refs.as_slice() {
        if reference.relation != Relation::Less {
            return false;
        }
    }
    true
}
