//! Raw terms and lists of them.

ghost use Rattle.std.specs.Prelude.{◌≡◌, ◌++◌, ◌∷◌, [], OnOk, OnErr, length};
ghost use Rattle.spec_grammar.specs.RawTree.{word, raw_trees};

use std::alloc::Global;
use std::marker::Model;
use term_core::{Name, OutOfMemory};

/// A word of a term with its place in the text, in bytes from 0, and the terms in parentheses
/// after it.
#[cycle(raw)]
#[derive(Drop)]
pub struct RawTerm {
    pub name: Name,
    pub at: usize,
    pub args: RawTerms,
}

/// Raw terms in their order.
#[cycle(raw)]
#[derive(Drop)]
pub struct RawTerms {
    items: Vec<RawTerm>,
}

impl Model for RawTerms {
    ghost use Rattle.std.specs.Prelude.{List};
    ghost use Rattle.std.specs.Coded.{coded_list};
    ghost use Rattle.spec_grammar.specs.RawTree.{RawTree};
    ghost use Rattle.spec_grammar.specs.RawCodes.{coded_raw};

    ghost Value = { List RawTree };

    ghost coded = { coded_list coded_raw };

    ghost use Rattle.spec_grammar.specs.RawMeasure.{list_weight, most_le};

    ghost view = { λ a. a.items.items };

    ghost size = { list_weight };

    ghost use Rattle.std.proofs.Common.{arith};

    ghost size_decreases = { λ a h. omega (arith, most_le a.items.items) };
}

impl Model for RawTerm {
    ghost use Rattle.spec_grammar.specs.RawTree.{RawTree, word, raw_trees};
    ghost use Rattle.spec_grammar.specs.RawCodes.{coded_raw};

    ghost Value = { RawTree };

    ghost coded = { coded_raw };

    ghost use Rattle.spec_grammar.specs.RawMeasure.{weight, list_weight_is};
    ghost use Rattle.std.proofs.Common.{arith};

    ghost view = { λ t. word t.name t.at (raw_trees t.args) };

    ghost size = { weight };

    ghost size_decreases = { λ a h. omega (arith, list_weight_is a.args) };
}

impl RawTerms {
    pub fn new(alloc: Global) -> RawTerms
        ensures { result ≡ [] }
    {
        RawTerms {
            items: Vec::new(alloc),
        }
    }

    pub fn as_slice(&self) -> &[RawTerm]
        ensures { result.now ≡ self.now }
    {
        self.items.as_slice()
    }

    pub fn len(&self) -> usize
        ensures { result ≡ length self.now }
    {
        self.items.len()
    }

    pub fn push(&mut self, term: RawTerm) -> Result<(), OutOfMemory>
        ensures pushed { OnOk result (self.new ≡ self.old ++ term ∷ []) }
        ensures kept { OnErr result (self.new ≡ self.old) }
    {
        self.items.push(term)?;
        Ok(())
    }
}

impl RawTerm {
    pub fn new(name: Name, at: usize, args: RawTerms) -> RawTerm
        ensures { result ≡ word name at (raw_trees args) }
    {
        RawTerm { name, at, args }
    }
}
