//! `Spine`: a term's root symbol along last arguments, and what ends this.

ghost use Rattle.std.specs.Prelude.{◌≡◌, ◌↔◌, ◌<◌, ◌-◌, IsTrue, IfOk, MatchResult};
ghost use Rattle.term_core.specs.Tree.{app, trees_of};
ghost use Rattle.term_core.specs.Measure.{list_weight};
ghost use Rattle.fitting_lists.specs.Spines.{one_more, last_run, spine_of, EndsWithin, MayBecome};
ghost use Rattle.fitting_lists.specs.Spines.{missing_in};

use term_core::{SymId, Term, TermNode};

/// What ends a spine: a variable, that the last symbol has no arguments, or another symbol.
#[derive(Clone, Copy, Debug, PartialEq, Eq)]
pub enum SpineEnd {
    Variable,
    NoArguments,
    Symbol(SymId),
}

/// The spine of a term: the symbol at its root, how often it occurs from there on along last
/// arguments, and what ends this. So succ(succ(plus(x, y))) has succ, 2 and plus. A variable has
/// the length 0. If spines don't fit, a pattern doesn't become a term, which is known without a
/// walk.
#[derive(Clone, Copy, Debug)]
pub struct Spine {
    pub root: Option<SymId>,
    /// It is never above the greatest u32.
    pub length: u32,
    pub end: SpineEnd,
}

impl Spine {
    pub fn of(term: &Term) -> Spine
        ensures { result ≡ spine_of term.now }
    {
        match &term.node {
            TermNode::Var(_) => Spine {
                root: None,
                length: 0,
                end: SpineEnd::Variable,
            },
            TermNode::App(symbol, arguments) => spine_below(*symbol, arguments.as_slice()),
        }
    }

    /// Whether a pattern with this spine may become a term with the other one.
    pub fn may_become(self, other: Spine) -> bool
        ensures { IsTrue result ↔ MayBecome self other }
    {
        if self.length == 0 {
            return true;
        }
        self.root == other.root && self.ends_within(other)
    }

    /// How often the root's symbol would have to occur more from the term's root on along last
    /// arguments for a pattern with this spine to become the term. The walk is no longer than the
    /// spine.
    pub fn missing(self, term: &Term) -> u32
        ensures { result ≡ missing_in self term.now }
    {
        match &term.node {
            TermNode::Var(_) => self.length,
            TermNode::App(symbol, arguments) => {
                if self.length > 0 && self.root == Some(*symbol) {
                    missing_along(*symbol, arguments.as_slice(), self.length - 1)
                } else {
                    self.length
                }
            }
        }
    }

    /// The same of two spines with one symbol.
    fn ends_within(self, other: Spine) -> bool
        ensures { IsTrue result ↔ EndsWithin self other }
    {
        match self.end {
            SpineEnd::Variable => self.length <= other.length,
            _ => self.length == other.length && self.end == other.end,
        }
    }
}

/// The spine of the term of this symbol and these arguments.
fn spine_below(symbol: SymId, arguments: &[Term]) -> Spine
    ensures { result ≡ spine_of (app symbol.0 (trees_of arguments.now)) }
{
    let mut length: u32 = 1;
    let mut rest = arguments;
    'along: loop {
        match next_along(symbol, rest) {
            Ok(next) => {
                length = length.saturating_add(1);
                rest = next;
            }
            Err(end) => {
                return Spine {
                    root: Some(symbol),
                    length,
                    end,
                };
            }
        }
    }
}

/// How often the symbol would have to occur more to occur so often along last arguments, from the
/// last of the terms on.
fn missing_along(symbol: SymId, terms: &[Term], times: u32) -> u32
    ensures { result ≡ times - (last_run symbol.0 (trees_of terms.now)).0 }
{
    let mut left = times;
    let mut rest = terms;
    'along: while left > 0 {
        match next_along(symbol, rest) {
            Ok(next) => {
                left -= 1;
                rest = next;
            }
            Err(_) => return left,
        }
    }
    0
}

/// The arguments of the last of the terms, if it begins with the symbol, or what ends the spine.
fn next_along(symbol: SymId, terms: &[Term]) -> Result<&[Term], SpineEnd>
    ensures run { let here = last_run symbol.0 (trees_of terms.now) in
        MatchResult result
        (λ next. here ≡ one_more (last_run symbol.0 (trees_of next.now)))
        (λ end. here ≡ (0, end)) }
    ensures falls { IfOk result (λ next. list_weight next.now < list_weight terms.now) }
{
    if terms.is_empty() {
        return Err(SpineEnd::NoArguments);
    }
    let last = &terms[terms.len() - 1];
    match &last.node {
        TermNode::Var(_) => Err(SpineEnd::Variable),
        TermNode::App(other, arguments) => {
            if *other == symbol {
                Ok(arguments.as_slice())
            } else {
                Err(SpineEnd::Symbol(*other))
            }
        }
    }
}
