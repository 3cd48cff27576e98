//! `Term` and `Terms`: making, sharing and comparing them.

ghost use Rattle.std.specs.Prelude.{◌≡◌, ◌≤◌, ◌<◌, ◌^◌, ◌↔◌, ℕ, [], ◌∷◌, ◌++◌, Some, IfOk};
ghost use Rattle.std.specs.Prelude.{OnOk, OnErr, IsTrue, MatchOption, length, min, slice_get};
ghost use Rattle.std.specs.Slice.Iter.{iter_rest};
ghost use Rattle.std.specs.Iterator.Adapters.{IterYieldsInOrder, IterYieldsInReverse};
ghost use Rattle.term_core.specs.Tree.{var as variable, app as application, trees_of};
ghost use Rattle.term_core.specs.Tree.{tree_size, tree_depth};
ghost use Rattle.term_core.specs.Measures.{measure_of, measures_of, tree_bound};
ghost use Rattle.term_core.specs.Variables.{Numbered};

use crate::ids::{SymId, VarId};
use crate::measures::Measure;
use crate::memory::OutOfMemory;
use std::alloc::Global;
use std::marker::Model;
use std::rc::Rc;
use std::{mem, slice};

/// A variable, or a symbol applied to terms.
#[cycle(term)]
#[derive(Drop)]
pub struct Term {
    pub node: TermNode,
}

/// The root of a term.
#[cycle(term)]
#[derive(Drop)]
pub enum TermNode {
    Var(VarId),
    App(SymId, Terms),
}

/// Terms in their order. Copies share them, so that a copy takes no memory.
#[cycle(term)]
#[derive(Drop)]
pub struct Terms {
    alloc: Global,
    shared: Option<Rc<Measured>>,
}

/// Terms of which there are some, with what is kept of them.
#[cycle(term)]
#[derive(Drop)]
struct Measured {
    items: Vec<Term>,
    measure: Measure,
}

impl Model for Terms {
    ghost use Rattle.std.specs.Prelude.{List};
    ghost use Rattle.std.specs.Coded.{coded_list};
    ghost use Rattle.term_core.specs.Tree.{Tree};
    ghost use Rattle.term_core.specs.Codes.{coded_tree};

    ghost Value = { List Tree };

    ghost coded = { coded_list coded_tree };

    ghost use Rattle.std.specs.Prelude.{option_map};
    ghost use Rattle.term_core.specs.Shared.{terms_in, IsMeasured};

    ghost view = { λ a. terms_in (option_map (λ rc. rc.value) a.shared) };

    ghost invariant = { λ a. IsMeasured (option_map (λ rc. rc.value) a.shared) };

    ghost use Rattle.term_core.specs.Measure.{list_weight, most_le};

    ghost size = { list_weight };

    ghost use Rattle.std.proofs.Common.{arith};
    ghost use Rattle.term_core.specs.Falling.{falls_to_members};

    ghost size_decreases = { λ a h.
        falls_to_members _ (λ m. omega (arith, most_le m.items.items)) a.shared };
}

impl Model for Term {
    ghost use Rattle.term_core.specs.Tree.{Tree};
    ghost use Rattle.term_core.specs.Codes.{coded_tree};

    ghost Value = { Tree };

    ghost coded = { coded_tree };

    ghost use Rattle.term_core.specs.Measure.{weight};
    ghost use Rattle.term_core.specs.View.{tree_of};

    ghost view = { λ t. tree_of t.node };

    ghost size = { weight };

    ghost use Rattle.term_core.specs.Falls.{falls};

    ghost size_decreases = { λ a h. falls a.node };
}

impl Terms {
    pub fn new(alloc: Global) -> Terms
        ensures { result ≡ [] }
    {
        Terms {
            alloc,
            shared: None,
        }
    }

    /// No terms yet, with room for `count`.
    pub fn with_capacity(alloc: Global, count: usize) -> Result<Terms, OutOfMemory>
        ensures { IfOk result (λ made. made ≡ []) }
    {
        Terms::from_vec(alloc, Vec::with_capacity(alloc, count)?)
    }

    pub fn from_vec(alloc: Global, items: Vec<Term>) -> Result<Terms, OutOfMemory>
        ensures { IfOk result (λ made. made ≡ items.items) }
    {
        let measure = measure_all(&items);
        let shared = Rc::new(alloc, Measured { items, measure })?;
        Ok(Terms {
            alloc,
            shared: Some(shared),
        })
    }

    /// The terms, which are copied if another one shares them.
    pub fn into_vec(self) -> Result<Vec<Term>, OutOfMemory>
        ensures { IfOk result (λ items. items.items ≡ self) }
    {
        let alloc = self.alloc;
        let Some(shared) = self.shared else {
            return Ok(Vec::new(alloc));
        };
        match Rc::try_unwrap(shared) {
            Ok(alone) => Ok(alone.items),
            Err(shared) => copy_all(alloc, &shared.items),
        }
    }

    /// Takes the terms out. They are copied where another list shares them; else the memory that
    /// holds them is kept for [`Terms::put_items`].
    pub fn take_items(&mut self) -> Result<Vec<Term>, OutOfMemory>
        ensures taken { IfOk result (λ items. items.items ≡ self.old) }
        ensures emptied { OnOk result (self.new ≡ []) }
        ensures kept { OnErr result (self.new ≡ self.old) }
    {
        if let Some(shared) = &mut self.shared {
            if let Some(alone) = Rc::get_mut(shared) {
                alone.measure = Measure::of_none();
                return Ok(mem::replace(&mut alone.items, Vec::new(self.alloc)));
            }
        }
        let items = copy_all(self.alloc, self.as_slice())?;
        self.shared = None;
        Ok(items)
    }

    /// Puts these terms in the place of those that are there. It takes no memory after
    /// [`Terms::take_items`] of terms that no other list shared.
    pub fn put_items(&mut self, items: Vec<Term>) -> Result<(), OutOfMemory>
        ensures put { OnOk result (self.new ≡ items.items) }
        ensures kept { OnErr result (self.new ≡ self.old) }
    {
        let measure = measure_all(&items);
        if let Some(shared) = &mut self.shared {
            if let Some(alone) = Rc::get_mut(shared) {
                alone.items = items;
                alone.measure = measure;
                return Ok(());
            }
        }
        self.shared = Some(Rc::new(self.alloc, Measured { items, measure })?);
        Ok(())
    }

    pub fn as_slice(&self) -> &[Term]
        ensures { result.now ≡ self.now }
    {
        match &self.shared {
            None => &[],
            Some(shared) => shared.items.as_slice(),
        }
    }

    pub fn iter(&self) -> slice::Iter<'_, Term>
        ensures rest { iter_rest result ≡ self.now }
        ensures bound { length (iter_rest result) < 2 ^ 64 }
        ensures runs { IterYieldsInOrder Term }
        ensures runs_back { IterYieldsInReverse Term }
    {
        self.as_slice().iter()
    }

    pub fn get(&self, index: usize) -> Option<&Term>
        ensures { MatchOption result (length self.now ≤ index)
            (λ t. slice_get self.now index ≡ Some t.now) }
    {
        self.as_slice().get(index)
    }

    pub fn len(&self) -> usize
        ensures { result ≡ length self.now }
    {
        self.as_slice().len()
    }

    pub fn is_empty(&self) -> bool
        ensures { IsTrue result ↔ (self.now ≡ []) }
    {
        self.as_slice().is_empty()
    }

    /// What is kept of the terms.
    pub(crate) fn measure(&self) -> Measure
        ensures { result ≡ measures_of (trees_of self.now) }
    {
        match &self.shared {
            None => Measure::of_none(),
            Some(shared) => shared.measure,
        }
    }

    /// Adds a term. If others share the terms, these are copied.
    pub fn push(&mut self, term: Term) -> Result<(), OutOfMemory>
        ensures pushed { OnOk result (self.new ≡ self.old ++ term ∷ []) }
        ensures kept { OnErr result (self.new ≡ self.old) }
    {
        let own = term.measure();
        let measure = self.measure().and(own);
        if let Some(shared) = &mut self.shared {
            if let Some(alone) = Rc::get_mut(shared) {
                alone.items.push(term)?;
                alone.measure = measure;
                return Ok(());
            }
        }
        let mut items = copy_all(self.alloc, self.as_slice())?;
        items.push(term)?;
        self.shared = Some(Rc::new(self.alloc, Measured { items, measure })?);
        Ok(())
    }

    pub fn copy(&self, _alloc: Global) -> Result<Terms, OutOfMemory>
        ensures { IfOk result (λ r. r ≡ self.now) }
    {
        let shared = match &self.shared {
            None => None,
            Some(shared) => Some(shared.clone()?),
        };
        Ok(Terms {
            alloc: self.alloc,
            shared,
        })
    }
}

impl<'a> IntoIterator for &'a Terms {
    type Item = &'a Term;

    type IntoIter = slice::Iter<'a, Term>;

    ghost use Rattle.term_core.specs.declared.tree.Term.{Term};

    ghost into_iter_gives = { λ list it. (iter_rest it ≡ list.now)
        × (length (iter_rest it) < 2 ^ 64) × IterYieldsInOrder Term };

    fn into_iter(self) -> slice::Iter<'a, Term> {
        self.as_slice().iter()
    }
}

impl Term {
    pub fn var(var: VarId) -> Term
        ensures { result ≡ variable var.0 }
    {
        Term {
            node: TermNode::Var(var),
        }
    }

    pub fn app(sym: SymId, args: Terms) -> Term
        ensures { result ≡ application sym.0 (trees_of args) }
    {
        Term {
            node: TermNode::App(sym, args),
        }
    }

    /// What is kept of the term.
    pub(crate) fn measure(&self) -> Measure
        ensures { result ≡ measure_of self.now }
    {
        match &self.node {
            TermNode::Var(var) => Measure::of_variable(*var),
            TermNode::App(_, args) => args.measure().below_symbol(),
        }
    }

    /// The number of symbols and variables, or `cap` if that is less.
    pub fn size(&self, cap: u32) -> u32
        ensures { result ≡ min (tree_size self.now) cap }
    {
        self.measure().size.min(cap)
    }

    /// The number of symbols and variables on the longest way down from the root, or `cap` if
    /// that is less.
    pub fn depth(&self, cap: u32) -> u32
        ensures { result ≡ min (tree_depth self.now) cap }
    {
        self.measure().depth.min(cap)
    }

    /// One more than the greatest number of a variable, and 0 if there is none.
    pub fn bound(&self) -> u64
        ensures { result ≡ tree_bound self.now }
    {
        self.measure().bound
    }

    /// How many variables are numbered after the term when this many are before it, if its
    /// variables are numbered by first occurrence.
    pub fn numbered_after(&self, before: u64) -> Option<u64>
        ensures { MatchOption result ((m : ℕ) → Numbered before self.now m → ⊥)
            (λ m. Numbered before self.now m) }
    {
        let measure = self.measure();
        if measure.need as u64 > before {
            return None;
        }
        Some(measure.bound.max(before))
    }

    /// Whether both are the same tree.
    #[cycle(same)]
    pub fn same(&self, other: &Term) -> bool
        ensures { IsTrue result ↔ (self.now ≡ other.now) }
    {
        match (&self.node, &other.node) {
            (TermNode::Var(a), TermNode::Var(b)) => a == b,
            (TermNode::App(f, xs), TermNode::App(g, ys)) => {
                f == g && xs.measure() == ys.measure() && same_all(xs.as_slice(), ys.as_slice())
            }
            _ => false,
        }
    }

    pub fn copy(&self, alloc: Global) -> Result<Term, OutOfMemory>
        ensures { IfOk result (λ r. r ≡ self.now) }
    {
        match &self.node {
            TermNode::Var(var) => Ok(Term::var(*var)),
            TermNode::App(sym, args) => Ok(Term::app(*sym, args.copy(alloc)?)),
        }
    }
}

/// Copies of the terms, in their order.
pub fn copy_all(alloc: Global, terms: &[Term]) -> Result<Vec<Term>, OutOfMemory>
    ensures { IfOk result (λ r. r.items ≡ terms.now) }
{
    let mut made = Vec::with_capacity(alloc, terms.len())?;
    for term in terms {
        made.push(term.copy(alloc)?)?;
    }
    Ok(made)
}

/// The measure of the terms.
fn measure_all(terms: &[Term]) -> Measure
    ensures { result ≡ measures_of (trees_of terms.now) }
{
    let mut measure = Measure::of_none();
    for term in terms {
        measure = measure.and(term.measure());
    }
    measure
}

#[cycle(same)]
fn same_all(xs: &[Term], ys: &[Term]) -> bool
    ensures { IsTrue result ↔ (xs.now ≡ ys.now) }
{
    match (xs, ys) {
        ([], []) => true,
        ([x, xs @ ..], [y, ys @ ..]) => x.same(y) && same_all(xs, ys),
        _ => false,
    }
}
