//! `apart`: the clauses of the children that a step makes, and the links without them.

ghost use Rattle.std.specs.Prelude.{◌≡◌, IfOk};
ghost use Rattle.acceptance.specs.Blocks.{clauses_of};
ghost use Rattle.block_links.specs.Links.{links_of, without_sides};

use clause_core::{Child, Children, Clause};
use std::alloc::Global;
use term_core::{OutOfMemory, Seq};

/// Takes what a step makes apart: the clauses of the children in their order, and the links, where
/// clauses without sides stand for them.
pub fn apart(alloc: Global, made: Children) -> Result<(Vec<Clause>, Children), OutOfMemory>
    ensures clauses { IfOk result (λ parts. parts.0.items ≡ clauses_of made) }
    ensures links { IfOk result (λ parts. parts.1 ≡ links_of made) }
{
    let Children { clauses, refs } = made;
    let mut nodes = Vec::with_capacity(alloc, clauses.len())?;
    let mut links = Vec::with_capacity(alloc, clauses.len())?;
    for child in clauses.into_vec() {
        let Child { clause, relation } = child;
        nodes.push(clause)?;
        links.push(Child {
            clause: clause_without_sides(alloc),
            relation,
        })?;
    }
    let clauses = Seq::from_vec(links);
    Ok((nodes, Children { clauses, refs }))
}

/// The clause in place of one that is left out: without variables, premises and conclusions.
pub fn clause_without_sides(alloc: Global) -> Clause
    ensures { result ≡ without_sides }
{
    Clause {
        ctx: Seq::new(alloc),
        premises: Seq::new(alloc),
        conclusions: Seq::new(alloc),
    }
}
