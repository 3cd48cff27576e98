//! `Kbo`: the ordering by weights, its tests and its ranks.

ghost use Rattle.std.specs.Prelude.{◌≡◌, ◌≤◌, ◌↔◌, IsTrue};
ghost use Rattle.term_core.specs.References.{terms_of};
ghost use Rattle.term_core.specs.Tree.{instance, tree_size};
ghost use Rattle.term_core.specs.Weights.{AreWeights};
ghost use Rattle.kbo_order.specs.Above.{AboveByWeight};
ghost use Rattle.kbo_order.specs.Weights.{symbol_weight, Fits};

use crate::compare::above;
use std::marker::Model;
use term_core::{Seq, Term};
use term_order::{Operand, TermOrder};

/// The ordering of Knuth and Bendix. The symbol of the greater number has the greater precedence.
/// Contracts see the list of the weights: a symbol beyond it weighs 1, and so does each variable.
#[derive(Drop)]
pub struct Kbo {
    weights: Seq<u32>,
}

impl Model for Kbo {
    ghost use Rattle.std.specs.Prelude.{List, ℕ};
    ghost use Rattle.term_core.specs.Weights.{AreWeights};

    ghost Value = { List ℕ };

    ghost view = { λ a. a.weights };

    ghost invariant = { λ a. AreWeights a.weights };
}

impl Kbo {
    /// Takes no memory.
    pub fn new(weights: Seq<u32>) -> Kbo
        requires { AreWeights weights }
        ensures { result ≡ weights }
    {
        Kbo { weights }
    }
}

impl TermOrder for Kbo {
    ghost use Rattle.kbo_order.specs.Rank.{IsRank};
    ghost use Rattle.kbo_order.specs.KboLaws.{kbo_laws, kbo_ranks};

    ghost above = { λ o. AboveByWeight (symbol_weight o) };

    ghost rank = { λ o. IsRank (symbol_weight o) };

    /// Says no if the weight of `t` passes 128 bits, and takes no memory. For variable 0, and for
    /// each other one of `s`, it goes once through both terms: in step if their heads are the same,
    /// and one after the other below heads that differ. So its steps are linear in the sizes of
    /// both, times the number of these variables, whatever the depth.
    fn greater(&self, t: &Term, s: &Term) -> bool
        ensures exact { let w = symbol_weight self.now in
            IsTrue result ↔ (Fits w t.now × AboveByWeight w t.now s.now) }
        ensures sound { IsTrue result → AboveByWeight (symbol_weight self.now) t.now s.now }
        ensures complete { tree_size t.now ≤ 4294967295 → tree_size s.now ≤ 4294967295 →
            AboveByWeight (symbol_weight self.now) t.now s.now → IsTrue result }
    {
        let first = Operand {
            term: t,
            is_pattern: false,
        };
        let second = Operand {
            term: s,
            is_pattern: false,
        };
        above(self.weights.as_slice(), &[], first, second)
    }

    /// Compares the instances as `greater` compares terms.
    fn greater_under(&self, list: &[&Term], t: &Term, s: &Term) -> bool
        ensures exact { let by = instance (terms_of list.now) in
            let w = symbol_weight self.now in
            IsTrue result ↔ (Fits w (by t.now) × AboveByWeight w (by t.now) (by s.now)) }
        ensures sound { let by = instance (terms_of list.now) in
            IsTrue result → AboveByWeight (symbol_weight self.now) (by t.now) (by s.now) }
        ensures complete { let by = instance (terms_of list.now) in
            tree_size (by t.now) ≤ 4294967295 → tree_size (by s.now) ≤ 4294967295 →
            AboveByWeight (symbol_weight self.now) (by t.now) (by s.now) → IsTrue result }
    {
        let first = Operand {
            term: t,
            is_pattern: true,
        };
        let second = Operand {
            term: s,
            is_pattern: true,
        };
        above(self.weights.as_slice(), list, first, second)
    }

    ghost laws = { kbo_laws };

    ghost ranks = { kbo_ranks };
}
