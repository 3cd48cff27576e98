//! Which left sides may match a call: one look at each place.

ghost use Rattle.std.specs.Prelude.{◌≡◌, ℕ, List};
ghost use Rattle.term_core.specs.Tree.{Tree, trees_of};
ghost use Rattle.spec_core.specs.declared.records.Rule.{Rule};
ghost use Rattle.value_bank.specs.Cells.{AreTerms};
ghost use Rattle.rule_code.specs.DecisionTrees.{next_of, IsTree, AreLeft};

use crate::symbols::Path;
use value_bank::Bank;

/// A decision tree of a function's rules (Maranget, 2008). The first node is the root, and each
/// node comes before those that follow it.
#[derive(Drop)]
pub struct DecisionTree {
    pub(crate) nodes: Vec<TreeNode>,
}

/// The rules that are left, in their order, and where a call is looked at to leave out more.
#[derive(Drop)]
pub(crate) struct TreeNode {
    pub(crate) rules: Vec<usize>,
    pub(crate) split: Option<Split>,
}

/// Where a call is looked at, and the nodes that follow: those of the symbols from `low` on, and
/// the one of all other symbols.
#[derive(Drop)]
pub(crate) struct Split {
    pub(crate) path: Path,
    pub(crate) low: u32,
    pub(crate) cases: Vec<usize>,
    pub(crate) other: usize,
}

impl Split {
    /// The node that follows for this symbol.
    #[inline(always)]
    fn next(&self, sym: u32) -> usize
        ensures { result ≡ next_of self.now sym }
    {
        if sym < self.low {
            return self.other;
        }
        match self.cases.as_slice().get((sym - self.low) as usize) {
            Some(next) => *next,
            None => self.other,
        }
    }
}

impl DecisionTree {
    /// The rules that are left for the call with arguments at these places. No place is looked at
    /// twice.
    #[inline(always)]
    pub fn rules_for(&self, bank: &Bank, args: &[u32]) -> &[usize]
        requires tree { (rules : List Rule) × (numbers : List ℕ) × IsTree rules numbers self.now }
        requires call { (terms : List Tree) × AreTerms bank.now args.now (trees_of terms) }
        ensures { (rules : List Rule) (numbers : List ℕ) (terms : List Tree)
            → IsTree rules numbers self.now
            → AreTerms bank.now args.now (trees_of terms) → AreLeft rules numbers terms result.now }
    {
        let mut at = 0;
        'down: loop {
            let node = &self.nodes[at];
            let Some(split) = &node.split else {
                return node.rules.as_slice();
            };
            match split.path.symbol_of(bank, args) {
                None => return node.rules.as_slice(),
                Some(sym) => at = split.next(sym),
            }
        }
    }
}
