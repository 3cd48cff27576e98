//! `TermOrder`: an order with its tests, its laws and its ranks.

ghost use Rattle.std.specs.Prelude.{◌≤◌, ℕ, IsTrue};
ghost use Rattle.term_core.specs.References.{terms_of};
ghost use Rattle.term_core.specs.Tree.{Tree, instance, tree_size};
ghost use Rattle.term_order.specs.Laws.{IsTermOrder, HasRanks};

use term_core::Term;

/// An order on terms, with its test. Its ranks show that descent ends; no code computes them.
pub trait TermOrder {
    /// `above o t s`: t is above s.
    ghost above: { Self → Tree → Tree → Type 0 };

    /// `rank o n k t r`: r is the rank of the ground term t, for n symbols and right terms of depth
    /// at most k.
    ghost rank: { Self → ℕ → ℕ → Tree → ℕ → Type 0 };

    /// Whether `t` is above `s`. Of larger terms it may say no although it is.
    fn greater(&self, t: &Term, s: &Term) -> bool
        ensures sound { IsTrue result → above self.now t.now s.now }
        ensures complete { tree_size t.now ≤ 4294967295 → tree_size s.now ≤ 4294967295 →
            above self.now t.now s.now → IsTrue result };

    /// Whether the instance of `t` by the list is above that of `s` by it. Neither instance is
    /// built. Of larger instances it may say no although it is.
    fn greater_under(&self, list: &[&Term], t: &Term, s: &Term) -> bool
        ensures sound { let by = instance (terms_of list.now) in
            IsTrue result → above self.now (by t.now) (by s.now) }
        ensures complete { let by = instance (terms_of list.now) in
            tree_size (by t.now) ≤ 4294967295 → tree_size (by s.now) ≤ 4294967295 →
            above self.now (by t.now) (by s.now) → IsTrue result };

    /// What is above is kept by substitutions, parts and contexts.
    ghost laws: { (o : Self) → IsTermOrder (above o) };

    /// Each ground term has one rank. It falls to arguments, and on what is above in each context.
    ghost ranks: { (o : Self) → HasRanks (above o) (rank o) };
}
