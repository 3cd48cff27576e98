//! Two sides and two terms, side by side along last arguments, before they are matched.

ghost use Rattle.std.specs.Prelude.{◌≡◌, List, IsTrue};
ghost use Rattle.term_core.specs.Tree.{Tree, trees_of, instance, instances};
ghost use Rattle.term_core.specs.Measure.{weight, list_weight};
ghost use Rattle.fitting_lists.specs.Along.{StillBecomes, IsLighter};

use spec_core::Equation;
use term_core::{Term, TermNode};

/// What a walk along last arguments finds at a pattern and a term: that their symbols differ, so
/// that no list makes the pattern the term, that the walk ends there, or their last arguments.
enum Below<'a> {
    Differing,
    End,
    Last(&'a Term, &'a Term),
}

/// Whether the symbols along last arguments agree, as far as both sides go on. If they don't, no
/// list makes the sides of the equation these terms. Both sides are walked at once, since either
/// may be the one that tells soon.
pub(crate) fn sides_agree(equation: &Equation, left: &Term, right: &Term) -> bool
    ensures { (list : List Tree) →
        instance list equation.now.left ≡ left.now →
        instance list equation.now.right ≡ right.now → IsTrue result }
{
    let mut left_pattern = &equation.left;
    let mut right_pattern = &equation.right;
    let mut left_term = left;
    let mut right_term = right;
    'along: loop {
        match last_arguments(left_pattern, left_term) {
            Below::Differing => return false,
            Below::End => return true,
            Below::Last(pattern, term) => {
                left_pattern = pattern;
                left_term = term;
            }
        }
        match last_arguments(right_pattern, right_term) {
            Below::Differing => return false,
            Below::End => return true,
            Below::Last(pattern, term) => {
                right_pattern = pattern;
                right_term = term;
            }
        }
    }
}

/// What the walk finds at the pattern and the term. A variable of the pattern ends it.
fn last_arguments<'a>(pattern: &'a Term, term: &'a Term) -> Below<'a>
    ensures becomes { (list : List Tree) → instance list pattern.now ≡ term.now →
        StillBecomes list result }
    ensures lighter { IsLighter (weight pattern.now) result }
{
    match (&pattern.node, &term.node) {
        (TermNode::Var(_), _) => Below::End,
        (TermNode::App(sym, patterns), TermNode::App(other, terms)) => {
            if sym != other {
                return Below::Differing;
            }
            last_ones(patterns.as_slice(), terms.as_slice())
        }
        _ => Below::Differing,
    }
}

/// The last of the patterns and that of the terms, if there are as many of both.
fn last_ones<'a>(patterns: &'a [Term], terms: &'a [Term]) -> Below<'a>
    ensures becomes { (list : List Tree) →
        instances list (trees_of patterns.now) ≡ trees_of terms.now → StillBecomes list result }
    ensures lighter { IsLighter (list_weight patterns.now) result }
{
    let count = patterns.len();
    if count == 0 || terms.len() != count {
        return Below::End;
    }
    Below::Last(&patterns[count - 1], &terms[count - 1])
}
