//! The place of a term.

ghost use Rattle.std.specs.Prelude.{◌≡◌, ◌≤◌, ◌+◌, ◌++◌, IfOk, length};
ghost use Rattle.term_core.specs.Tree.{trees_of, tree_size, sizes};
ghost use Rattle.value_bank.specs.Cells.{IsTerm, AreTerms, AddsCells};
ghost use Rattle.value_bank.specs.Ground.{IsGround, AreGround};
ghost use Rattle.value_bank.specs.Placing.{AddsPlaces};

use crate::bank::{Bank, ValueId};
use std::alloc::Global;
use term_core::{OutOfMemory, Term, TermNode, front};

impl Bank {
    /// The place of a ground term, whose cells are added if they aren't there. It calls itself as
    /// deep as the term is.
    pub fn value(&mut self, alloc: Global, value: &Term) -> Result<ValueId, OutOfMemory>
        requires { IsGround value.now }
        ensures placed { IfOk result (λ id. IsTerm self.new id.0 value.now) }
        ensures adds { AddsCells self.old self.new }
        ensures few { length self.new ≤ length self.old + tree_size value.now }
    {
        let place = self.place(alloc, value)?;
        Ok(ValueId(place as usize))
    }

    #[cycle(place)]
    fn place(&mut self, alloc: Global, value: &Term) -> Result<u32, OutOfMemory>
        requires { IsGround value.now }
        ensures placed { IfOk result (λ p. IsTerm self.new p value.now) }
        ensures adds { AddsCells self.old self.new }
        ensures few { length self.new ≤ length self.old + tree_size value.now }
    {
        match &value.node {
            TermNode::Var(_) => unreachable!(),
            TermNode::App(sym, args) => {
                let mut places = Vec::with_capacity(alloc, args.len())?;
                self.place_all(alloc, args.as_slice(), &mut places)?;
                self.add(sym.0, &places)
            }
        }
    }

    /// Adds the places of the terms, in their order.
    #[cycle(place)]
    fn place_all(
        &mut self,
        alloc: Global,
        values: &[Term],
        places: &mut Vec<u32>,
    ) -> Result<(), OutOfMemory>
        requires { AreGround (trees_of values.now) }
        ensures placed { IfOk result (λ _. AddsPlaces self.new (trees_of values.now)
            places.old.items places.new.items) }
        ensures adds { AddsCells self.old self.new }
        ensures few { length self.new ≤ length self.old + sizes (trees_of values.now) }
    {
        match front(values) {
            None => Ok(()),
            Some((value, rest)) => {
                let place = self.place(alloc, value)?;
                places.push(place)?;
                self.place_all(alloc, rest, places)
            }
        }
    }
}
