//! `RuleTable`: the rules of each function.

ghost use Rattle.std.specs.Prelude.{◌≡◌, ◌<◌, ◌^◌, [], IfOk, OnOk, length, slice_index_or};
ghost use Rattle.spec_core.specs.RuleTables.{IsTableOf, AddsPlace, HasSameLists};

use crate::records::Spec;
use std::alloc::Global;
use std::marker::Model;
use term_core::{OutOfMemory, Seq, SymId, TermNode};

/// For each symbol the places of its function's rules among all rules, from 0 and in their order.
/// Contracts see the lists by the symbols' numbers, where those that are missing are empty.
#[derive(Drop)]
pub struct RuleTable {
    lists: Vec<Seq<usize>>,
}

impl Model for RuleTable {
    ghost use Rattle.std.specs.Prelude.{List, ℕ};

    ghost Value = { List (List ℕ) };

    ghost view = { λ t. t.lists.items };
}

impl RuleTable {
    /// Goes through all rules once.
    pub fn new(alloc: Global, spec: &Spec) -> Result<RuleTable, OutOfMemory>
        ensures { IfOk result (IsTableOf spec.now) }
    {
        let mut lists = Vec::new(alloc);
        for (place, rule) in spec.rules.as_slice().iter().enumerate() {
            let left = &rule.left;
            match &left.node {
                TermNode::Var(_) => continue,
                TermNode::App(sym, _) => add_place(alloc, &mut lists, *sym, place)?,
            }
        }
        Ok(RuleTable { lists })
    }

    /// The places of the rules of this function.
    pub fn rules_of(&self, sym: SymId) -> &[usize]
        ensures { result.now ≡ slice_index_or self.now sym.0 [] }
    {
        match self.lists.get(sym.0 as usize) {
            Some(places) => places.as_slice(),
            None => &[],
        }
    }
}

/// Adds a place to the symbol's list.
fn add_place(
    alloc: Global,
    lists: &mut Vec<Seq<usize>>,
    sym: SymId,
    place: usize,
) -> Result<(), OutOfMemory>
    ensures { OnOk result (AddsPlace lists.old.items lists.new.items sym.0 place) }
{
    let function = sym.0 as usize;
    reach(alloc, lists, function)?;
    let places = &mut lists[function];
    places.push(place)
}

/// Adds empty lists until there is one with this number.
fn reach(alloc: Global, lists: &mut Vec<Seq<usize>>, number: usize) -> Result<(), OutOfMemory>
    requires { number < 2 ^ 32 }
    ensures same { OnOk result (HasSameLists lists.old.items lists.new.items) }
    ensures there { OnOk result (number < length lists.new.items) }
{
    for _ in lists.len()..number + 1 {
        lists.push(Seq::new(alloc))?;
    }
    Ok(())
}
