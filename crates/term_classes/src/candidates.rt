//! `Candidate`: a clause that may be a lemma.

ghost use Rattle.std.specs.Prelude.{◌≡◌, length, IfOk};
ghost use Rattle.clause_core.specs.Tidied.{IsTidied};

use clause_core::{Clause, into_tidied, tidying_laws};
use spec_core::Equation;
use std::alloc::Global;
use term_core::{OutOfMemory, Seq, SortId, Term};

/// A clause that holds at the samples, so that it may be a lemma: an equation, with two premises at
/// most. Its variables are numbered by first occurrence.
#[derive(Drop)]
pub struct Candidate {
    pub clause: Clause,
    /// The number of symbols and variables of its sides. A clause counts as larger if its
    /// conclusion says nothing of a variable of its premise.
    pub size: u32,
    pub variables: u32,
    /// How many candidates were made before it.
    pub made: u32,
    pub ghost tidied: { ∥ IsTidied clause ∥₁ },
    pub ghost counted: { length clause.ctx ≡ variables },
    pub ghost concludes: { length clause.conclusions ≡ 1 },
}

impl Candidate {
    /// The candidate that the conclusion holds where the premises do. `sorts` has the sorts of
    /// their variables.
    pub(crate) fn new(
        alloc: Global,
        sorts: &[SortId],
        premises: Vec<Equation>,
        conclusion: Equation,
        size: u32,
    ) -> Result<Candidate, OutOfMemory> {
        let clause = clause_of(alloc, sorts, premises, conclusion)?;
        let count = clause.ctx.len();
        // There are no more variables than numbers for them.
        if count > u32::MAX as usize {
            return Err(OutOfMemory);
        }
        Ok(Candidate {
            clause,
            size,
            variables: count as u32,
            made: 0,
        })
    }
}

/// The clause of the premises and the conclusion, tidied.
fn clause_of(
    alloc: Global,
    sorts: &[SortId],
    premises: Vec<Equation>,
    conclusion: Equation,
) -> Result<Clause, OutOfMemory>
    ensures tidied { IfOk result IsTidied }
    ensures concludes { IfOk result (λ made. length made.conclusions ≡ 1) }
{
    tidying_laws();
    let mut conclusions = Vec::with_capacity(alloc, 1)?;
    conclusions.push(conclusion)?;
    let clause = Clause {
        ctx: Seq::from_vec(Vec::from_slice(alloc, sorts)?),
        premises: Seq::from_vec(premises),
        conclusions: Seq::from_vec(conclusions),
    };
    let made = into_tidied(alloc, clause)?;
    Ok(made)
}

/// The equation of two terms.
pub(crate) fn equation(alloc: Global, left: &Term, right: &Term) -> Result<Equation, OutOfMemory> {
    Ok(Equation {
        left: left.copy(alloc)?,
        right: right.copy(alloc)?,
    })
}
