//! Copies of steps and places.

ghost use Rattle.std.specs.Prelude.{◌≡◌, IfOk};

use clause_core::{Place, Step};
use std::alloc::Global;
use term_core::{OutOfMemory, Seq, Term, copy_all};

/// A copy of the step.
pub fn copy_step(alloc: Global, step: &Step) -> Result<Step, OutOfMemory>
    ensures { IfOk result (λ made. made ≡ step.now) }
{
    Ok(match step {
        Step::Trivial(conclusion) => Step::Trivial(*conclusion),
        Step::Match(conclusion, premise) => Step::Match(*conclusion, *premise),
        Step::Absurd(premise) => Step::Absurd(*premise),
        Step::Subsume(node, list) => Step::Subsume(*node, copy_terms(alloc, list)?),
        Step::ByLemma(name, list) => Step::ByLemma(name.copy(alloc)?, copy_terms(alloc, list)?),
        Step::Rule(place, rule) => Step::Rule(copy_place(alloc, place)?, *rule),
        Step::Case(place, rule) => Step::Case(copy_place(alloc, place)?, *rule),
        Step::Decompose(conclusion, number) => Step::Decompose(*conclusion, *number),
        Step::Clash(conclusion) => Step::Clash(*conclusion),
        Step::Drop(conclusion, number) => Step::Drop(*conclusion, *number),
        Step::Solve(premise) => Step::Solve(*premise),
        Step::Cover(variable, patterns) => Step::Cover(*variable, copy_terms(alloc, patterns)?),
        Step::Generalize(term) => Step::Generalize(term.copy(alloc)?),
        Step::Context(place, premise, left) => {
            Step::Context(copy_place(alloc, place)?, *premise, *left)
        }
        Step::Hyp(node, list, place, left) => {
            let list = copy_terms(alloc, list)?;
            Step::Hyp(*node, list, copy_place(alloc, place)?, *left)
        }
        Step::Lemma(name, list, place, left) => {
            let list = copy_terms(alloc, list)?;
            Step::Lemma(name.copy(alloc)?, list, copy_place(alloc, place)?, *left)
        }
    })
}

fn copy_terms(alloc: Global, terms: &Seq<Term>) -> Result<Seq<Term>, OutOfMemory>
    ensures { IfOk result (λ made. made ≡ terms.now) }
{
    Ok(Seq::from_vec(copy_all(alloc, terms.as_slice())?))
}

/// A copy of the place.
pub fn copy_place(alloc: Global, place: &Place) -> Result<Place, OutOfMemory>
    ensures { IfOk result (λ made. made ≡ place.now) }
{
    Ok(Place {
        conclusion: place.conclusion,
        number: place.number,
        left: place.left,
        path: Seq::from_vec(place.path.as_slice().to_vec(alloc)?),
    })
}
