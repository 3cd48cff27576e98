//! Two terms in step: their sums, and whether one is above the other.

ghost use Rattle.std.specs.Prelude.{◌≡◌, ◌↔◌, ℕ, length, IsTrue, MatchOption, if◌then◌else◌};
ghost use Rattle.term_core.specs.References.{terms_of};
ghost use Rattle.term_core.specs.Tree.{Tree, Trees, some as before, list_of, trees_of};
ghost use Rattle.term_order.specs.Operands.{meaning};
ghost use Rattle.kbo_order.specs.Operands.{meanings};
ghost use Rattle.kbo_order.specs.Weights.{symbol_weight, Fits, ArgumentsFit};
ghost use Rattle.kbo_order.specs.Above.{AboveByWeight};
ghost use Rattle.kbo_order.specs.Counted.{IsSum};
ghost use Rattle.kbo_order.specs.Standing.{AboveFor, TermsStand, RootsStand, ArgumentsStand};
ghost use Rattle.kbo_order.specs.Standing.{IsPair, IsPairOfLists};

use crate::operands::{Operands, Root};
use crate::totals::{Sums, total, total_of_all};
use crate::variables::next_variable;
use term_core::{Term, VarId};
use term_order::Operand;

/// How one term stands to another, or one list of arguments to another, as far as one variable is
/// counted.
#[derive(Clone, Copy)]
enum Standing {
    Same,
    Greater,
    Neither,
}

/// The sums of two terms, or of two lists of arguments, and how the first stands to the second.
#[derive(Clone, Copy)]
struct Pair {
    first: Sums,
    second: Sums,
    standing: Standing,
}

impl Standing {
    fn greater_or_neither(is_greater: bool) -> Standing
        ensures { result ≡ if is_greater then Standing.Greater else Standing.Neither }
    {
        if is_greater {
            Standing::Greater
        } else {
            Standing::Neither
        }
    }

    fn same_or_neither(is_same: bool) -> Standing
        ensures { result ≡ if is_same then Standing.Same else Standing.Neither }
    {
        if is_same {
            Standing::Same
        } else {
            Standing::Neither
        }
    }

    /// How two lists stand whose first terms stand as `self` and whose others stand as `others`.
    fn before(self, others: Standing, are_as_many: bool) -> Standing
        ensures { (w : ℕ → ℕ) → (x : ℕ) → (a b : Tree) → (ts ss : Trees) →
            TermsStand w x a b self → ArgumentsStand w x ts ss others →
            (IsTrue are_as_many ↔ (length (list_of ts) ≡ length (list_of ss))) →
            ArgumentsStand w x (before a ts) (before b ss) result }
    {
        match self {
            Standing::Same => others,
            Standing::Greater => Standing::greater_or_neither(are_as_many),
            Standing::Neither => Standing::Neither,
        }
    }
}

/// How two terms of these sums stand. If they weigh the same their roots decide.
fn by_weight(first: Sums, second: Sums, roots: Standing) -> Standing
    ensures { (w : ℕ → ℕ) → (x : ℕ) → (t s : Tree) → IsSum w x t first → IsSum w x s second →
        RootsStand w x t s roots → TermsStand w x t s result }
{
    if first.count < second.count {
        return Standing::Neither;
    }
    if first.weight < second.weight {
        return Standing::Neither;
    }
    if second.weight < first.weight {
        return Standing::Greater;
    }
    roots
}

/// The pair of two terms whose roots stand so, or None if the weight of one of them passes 128
/// bits.
fn apart<'a>(
    weights: &[u32],
    x: VarId,
    list: &[&'a Term],
    t: Operand<'a>,
    s: Operand<'a>,
    roots: Standing,
) -> Option<Pair>
    requires { let values = terms_of list.now in
        RootsStand (symbol_weight weights.now) x.0 (meaning values t) (meaning values s) roots }
    ensures { let values = terms_of list.now in
        let w = symbol_weight weights.now in
        MatchOption result (Fits w (meaning values t.entry) → Fits w (meaning values s.entry) → ⊥)
        (λ pair. IsPair w x.0 (meaning values t.entry) (meaning values s.entry) pair) }
{
    let first = total(weights, x, list, t)?;
    let second = total(weights, x, list, s)?;
    let standing = by_weight(first, second, roots);
    Some(Pair {
        first,
        second,
        standing,
    })
}

/// The pair of two terms, or None if the weight of one of them passes 128 bits. If the heads
/// are the same it goes through the arguments of both in step.
#[cycle(compare)]
fn compare<'a>(
    weights: &[u32],
    x: VarId,
    list: &[&'a Term],
    t: Operand<'a>,
    s: Operand<'a>,
) -> Option<Pair>
    ensures { let values = terms_of list.now in
        let w = symbol_weight weights.now in
        MatchOption result (Fits w (meaning values t.entry) → Fits w (meaning values s.entry) → ⊥)
        (λ pair. IsPair w x.0 (meaning values t.entry) (meaning values s.entry) pair) }
{
    match (Root::of(list, t), Root::of(list, s)) {
        (Root::App(f, ts), Root::App(g, ss)) => {
            if f == g {
                let head = Sums::of_symbol(weights, f);
                let arguments = compare_arguments(weights, x, list, ts, ss)?;
                let first = head.plus(arguments.first)?;
                let second = head.plus(arguments.second)?;
                let standing = by_weight(first, second, arguments.standing);
                Some(Pair {
                    first,
                    second,
                    standing,
                })
            } else {
                let heads = Standing::greater_or_neither(g.0 < f.0);
                apart(weights, x, list, t, s, heads)
            }
        }
        (Root::Var(y), Root::Var(z)) => {
            let variables = Standing::same_or_neither(y == z);
            apart(weights, x, list, t, s, variables)
        }
        _ => apart(weights, x, list, t, s, Standing::Neither),
    }
}

/// The pair of two lists of arguments, or None if the weight of one of them passes 128 bits.
#[cycle(compare)]
fn compare_arguments<'a>(
    weights: &[u32],
    x: VarId,
    list: &[&'a Term],
    ts: Operands<'a>,
    ss: Operands<'a>,
) -> Option<Pair>
    ensures { let values = terms_of list.now in
        let w = symbol_weight weights.now in
        MatchOption result (ArgumentsFit w (trees_of (meanings values ts.entry)) →
        ArgumentsFit w (trees_of (meanings values ss.entry)) → ⊥)
        (λ pair. IsPairOfLists w x.0 (trees_of (meanings values ts.entry))
        (trees_of (meanings values ss.entry)) pair) }
{
    match (ts.front(), ss.front()) {
        (Some((a, ts)), Some((b, ss))) => {
            let pair = compare(weights, x, list, a, b)?;
            let others = compare_arguments(weights, x, list, ts, ss)?;
            let first = pair.first.plus(others.first)?;
            let second = pair.second.plus(others.second)?;
            let standing = pair.standing.before(others.standing, ts.len() == ss.len());
            Some(Pair {
                first,
                second,
                standing,
            })
        }
        (None, None) => Some(Pair {
            first: Sums::of_nothing(),
            second: Sums::of_nothing(),
            standing: Standing::Same,
        }),
        _ => {
            let first = total_of_all(weights, x, list, ts)?;
            let second = total_of_all(weights, x, list, ss)?;
            Some(Pair {
                first,
                second,
                standing: Standing::Neither,
            })
        }
    }
}

/// Whether `t` is above `s` as far as `x` is counted. It says no if the weight of `t` passes 128
/// bits.
fn above_for<'a>(
    weights: &[u32],
    x: VarId,
    list: &[&'a Term],
    t: Operand<'a>,
    s: Operand<'a>,
) -> bool
    ensures { let values = terms_of list.now in
        let w = symbol_weight weights.now in
        IsTrue result ↔
        (Fits w (meaning values t.entry) ×
        AboveFor w x.0 (meaning values t.entry) (meaning values s.entry)) }
{
    match compare(weights, x, list, t, s) {
        Some(pair) => match pair.standing {
            Standing::Greater => true,
            Standing::Same => false,
            Standing::Neither => false,
        },
        None => false,
    }
}

/// Whether `t` is above `s`. It says no if the weight of `t` passes 128 bits. Variable 0 is counted
/// first, whether it is in `s` or not, and then each other one that is in `s`.
pub(crate) fn above<'a>(weights: &[u32], list: &[&'a Term], t: Operand<'a>, s: Operand<'a>) -> bool
    ensures { let values = terms_of list.now in
        let w = symbol_weight weights.now in
        IsTrue result ↔
        (Fits w (meaning values t.entry) ×
        AboveByWeight w (meaning values t.entry) (meaning values s.entry)) }
{
    if !above_for(weights, VarId(0), list, t, s) {
        return false;
    }
    let mut from: u64 = 1;
    while let Some(x) = next_variable(from, list, s) {
        if !above_for(weights, x, list, t, s) {
            return false;
        }
        from = u64::from(x.0) + 1;
    }
    true
}
