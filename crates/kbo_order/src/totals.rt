//! The weight of a term, and how often it has a variable.

ghost use Rattle.std.specs.Prelude.{◌≡◌, ℕ, ◌+◌, ◌<◌, ◌^◌, MatchOption};
ghost use Rattle.term_core.specs.References.{terms_of};
ghost use Rattle.term_core.specs.Tree.{trees_of, var as variable};
ghost use Rattle.term_order.specs.Operands.{meaning};
ghost use Rattle.kbo_order.specs.Operands.{meanings};
ghost use Rattle.kbo_order.specs.Counted.{IsSum, IsSumOfAll};
ghost use Rattle.kbo_order.specs.Weights.{symbol_weight, Fits, ArgumentsFit};

use crate::operands::{Operands, Root};
use term_core::{SymId, Term, VarId};
use term_order::Operand;

/// The weight of a term or of some terms, and how often one variable is there.
#[derive(Clone, Copy)]
pub(crate) struct Sums {
    pub(crate) weight: u128,
    pub(crate) count: u128,
}

impl Sums {
    pub(crate) fn of_nothing() -> Sums
        ensures { (result.weight ≡ 0) × (result.count ≡ 0) }
    {
        Sums {
            weight: 0,
            count: 0,
        }
    }

    /// Those of the variable `y`, where `x` is counted.
    fn of_variable(x: VarId, y: VarId) -> Sums
        ensures { (w : ℕ → ℕ) → IsSum w x.0 (variable y.0) result }
    {
        let count = if x == y { 1 } else { 0 };
        Sums { weight: 1, count }
    }

    pub(crate) fn of_symbol(weights: &[u32], symbol: SymId) -> Sums
        ensures { (result.weight ≡ symbol_weight weights.now symbol.0) × (result.count ≡ 0) }
    {
        Sums {
            weight: weight(weights, symbol),
            count: 0,
        }
    }

    /// The sums of both, or None if one of them passes 128 bits.
    pub(crate) fn plus(self, other: Sums) -> Option<Sums>
        ensures { let weight = self.weight + other.weight in
            let count = self.count + other.count in
            MatchOption result (weight < 2 ^ 128 → count < 2 ^ 128 → ⊥)
            (λ sums. (sums.weight ≡ weight) × (sums.count ≡ count)) }
    {
        let weight = self.weight.checked_add(other.weight)?;
        let count = self.count.checked_add(other.count)?;
        Some(Sums { weight, count })
    }
}

/// The weight of a symbol.
fn weight(weights: &[u32], symbol: SymId) -> u128
    ensures { result ≡ symbol_weight weights.now symbol.0 }
{
    match weights.get(symbol.0 as usize) {
        Some(weight) => u128::from((*weight).max(1)),
        None => 1,
    }
}

/// The weight of a term and how often `x` is in it, or None if the weight passes 128 bits.
#[cycle(total)]
pub(crate) fn total<'a>(
    weights: &[u32],
    x: VarId,
    list: &[&'a Term],
    t: Operand<'a>,
) -> Option<Sums>
    ensures { let values = terms_of list.now in
        let w = symbol_weight weights.now in
        MatchOption result (Fits w (meaning values t.entry) → ⊥)
        (λ sums. IsSum w x.0 (meaning values t.entry) sums) }
{
    match Root::of(list, t) {
        Root::Var(y) => Some(Sums::of_variable(x, y)),
        Root::App(f, args) => {
            let arguments = total_of_all(weights, x, list, args)?;
            Sums::of_symbol(weights, f).plus(arguments)
        }
    }
}

/// The weight of some terms and how often `x` is in them, or None if the weight passes 128 bits.
#[cycle(total)]
pub(crate) fn total_of_all<'a>(
    weights: &[u32],
    x: VarId,
    list: &[&'a Term],
    terms: Operands<'a>,
) -> Option<Sums>
    ensures { let values = terms_of list.now in
        let w = symbol_weight weights.now in
        MatchOption result (ArgumentsFit w (trees_of (meanings values terms.entry)) → ⊥)
        (λ sums. IsSumOfAll w x.0 (trees_of (meanings values terms.entry)) sums) }
{
    match terms.front() {
        None => Some(Sums::of_nothing()),
        Some((first, others)) => {
            let sums = total(weights, x, list, first)?;
            let rest = total_of_all(weights, x, list, others)?;
            sums.plus(rest)
        }
    }
}
