//! The symbol at a place of a left side, and of a call.

ghost use Rattle.std.specs.Prelude.{◌≡◌, List, Some, slice_get};
ghost use Rattle.term_core.specs.Tree.{Tree, trees_of};
ghost use Rattle.spec_core.specs.declared.records.Rule.{Rule as SpecRule};
ghost use Rattle.value_bank.specs.Cells.{AreTerms};
ghost use Rattle.rule_code.specs.Symbols.{symbol_at, symbol_in};

use spec_core::Rule;
use term_core::{Term, TermNode, front};
use value_bank::Bank;

/// The way to a part of a call: the number of an argument, and the numbers of arguments below it.
#[derive(Drop)]
pub(crate) struct Path {
    pub(crate) argument: usize,
    pub(crate) below: Vec<usize>,
}

impl Path {
    /// The symbol there on a rule's left side, unless there is a variable or nothing.
    pub(crate) fn symbol_in(&self, rule: &Rule) -> Option<u32>
        ensures { result ≡ symbol_in self.now rule.now }
    {
        let left = &rule.left;
        match &left.node {
            TermNode::Var(_) => None,
            TermNode::App(_, args) => symbol_at(args.as_slice(), self.argument, &self.below),
        }
    }

    /// The same of the rule with this number.
    pub(crate) fn symbol_of_rule(&self, rules: &[Rule], number: usize) -> Option<u32>
        ensures { (rule : SpecRule) → slice_get rules.now number ≡ Some rule
            → result ≡ symbol_in self.now rule }
    {
        match rules.get(number) {
            None => None,
            Some(rule) => self.symbol_in(rule),
        }
    }

    /// The symbol there in a call with arguments at these places, unless there is nothing.
    #[inline(always)]
    pub(crate) fn symbol_of(&self, bank: &Bank, args: &[u32]) -> Option<u32>
        requires { (terms : List Tree) × AreTerms bank.now args.now (trees_of terms) }
        ensures { (terms : List Tree) → AreTerms bank.now args.now (trees_of terms)
            → result ≡ symbol_at self.now.argument self.now.below.items terms }
    {
        symbol_below(bank, args, self.argument, &self.below)
    }
}

/// The symbol of the term that one reaches by these numbers of arguments.
fn symbol_at(terms: &[Term], argument: usize, below: &[usize]) -> Option<u32>
    ensures { result ≡ symbol_at argument below.now terms.now }
{
    match terms.get(argument) {
        None => None,
        Some(term) => match &term.node {
            TermNode::Var(_) => None,
            TermNode::App(sym, args) => match front(below) {
                None => Some(sym.0),
                Some((next, rest)) => symbol_at(args.as_slice(), *next, rest),
            },
        },
    }
}

/// The symbol of the value that one reaches by these numbers of arguments.
fn symbol_below(bank: &Bank, args: &[u32], argument: usize, below: &[usize]) -> Option<u32>
    requires { (terms : List Tree) × AreTerms bank.now args.now (trees_of terms) }
    ensures { (terms : List Tree) → AreTerms bank.now args.now (trees_of terms)
        → result ≡ symbol_at argument below.now terms }
{
    match args.get(argument) {
        None => None,
        Some(place) => {
            let (sym, args) = bank.cell(*place);
            match front(below) {
                None => Some(sym),
                Some((next, rest)) => symbol_below(bank, args, *next, rest),
            }
        }
    }
}
