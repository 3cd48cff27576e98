//! What is compared: a term as it is, or a pattern that means its instance.

ghost use Rattle.std.specs.Prelude.{◌≡◌, ℕ};
ghost use Rattle.term_core.specs.References.{terms_of};
ghost use Rattle.term_core.specs.Tree.{var as variable};
ghost use Rattle.term_order.specs.Operands.{meaning};

use term_core::{Term, TermNode};

/// A term that is compared: as it is, or as a pattern, which means its instance by the list of
/// the comparison.
#[derive(Clone, Copy)]
pub struct Operand<'a> {
    pub term: &'a Term,
    pub is_pattern: bool,
}

impl<'a> Operand<'a> {
    /// The same, where a variable that has a term in the list is that term.
    pub fn resolved(self, list: &[&'a Term]) -> Operand<'a>
        ensures same { meaning (terms_of list.now) result ≡ meaning (terms_of list.now) self.entry }
        ensures variable { (x : ℕ) → result.term.now ≡ variable x →
            meaning (terms_of list.now) result ≡ variable x }
    {
        if !self.is_pattern {
            return self;
        }
        let term = self.term;
        match &term.node {
            TermNode::Var(x) => match list.get(x.0 as usize) {
                Some(image) => Operand {
                    term: *image,
                    is_pattern: false,
                },
                None => self,
            },
            TermNode::App(_, _) => self,
        }
    }
}
