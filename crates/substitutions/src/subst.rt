//! `Subst`: terms for the variables from number 0 on.

ghost use Rattle.std.specs.Prelude.{◌≡◌, ◌↔◌, ◌<◌, ◌^◌, [], Some, IfOk, OnOk, OnErr, IsTrue, map};
ghost use Rattle.std.specs.Prelude.{option_map};
ghost use Rattle.std.specs.Option.{option_copied, option_or};
ghost use Rattle.term_core.specs.Tree.{Tree};
ghost use Rattle.spec_core.specs.Sorts.{Sorted};
ghost use Rattle.substitutions.specs.Substitution.{entry, apply, IsComposed};
ghost use Rattle.substitutions.specs.Fitting.{Fits};
ghost use Rattle.substitutions.specs.Updates.{IsSetTo};

use spec_core::Signature;
use std::alloc::Global;
use std::mem;
use term_core::{OutOfMemory, Seq, SortId, Term, TermNode, Terms, VarId};

/// A substitution of terms for variables, by variable number. A variable without an entry stands
/// for itself.
#[derive(Drop)]
pub struct Subst {
    pub terms: Seq<Option<Term>>,
}

impl Subst {
    /// The substitution without entries.
    pub fn new(alloc: Global) -> Subst
        ensures { result.terms ≡ [] }
    {
        Subst {
            terms: Seq::new(alloc),
        }
    }

    /// The entry of the variable.
    pub fn get(&self, var: VarId) -> Option<&Term>
        ensures { option_copied result ≡ entry self.now.terms var.0 }
    {
        self.at(var.0 as usize)
    }

    /// The entry at a place, which is the variable's number.
    fn at(&self, place: usize) -> Option<&Term>
        ensures { option_copied result ≡ entry self.now.terms place }
    {
        match self.terms.as_slice().get(place) {
            Some(Some(term)) => Some(term),
            _ => None,
        }
    }

    /// Gives the variable this entry, in place of the one that it had.
    pub fn set(&mut self, alloc: Global, var: VarId, term: Term) -> Result<(), OutOfMemory>
        ensures set { OnOk result (IsSetTo self.old.terms var.0 term self.new.terms) }
        ensures kept { OnErr result (self.new ≡ self.old) }
    {
        let mut terms = mem::replace(&mut self.terms, Seq::new(alloc)).into_vec();
        let done = put(&mut terms, var.0 as usize, term);
        self.terms = Seq::from_vec(terms);
        done
    }

    /// The term with each variable exchanged for its entry, all at once. Terms without variables
    /// are shared.
    #[cycle(apply)]
    pub fn apply(&self, alloc: Global, term: &Term) -> Result<Term, OutOfMemory>
        ensures { IfOk result (λ made. made ≡ apply self.now.terms term.now) }
    {
        if term.bound() == 0 {
            return term.copy(alloc);
        }
        match &term.node {
            TermNode::Var(var) => match self.get(*var) {
                Some(image) => image.copy(alloc),
                None => Ok(Term::var(*var)),
            },
            TermNode::App(sym, args) => Ok(Term::app(
                *sym,
                self.apply_all(alloc, args.as_slice())?,
            )),
        }
    }

    /// The terms in their order, each with its variables exchanged.
    #[cycle(apply)]
    pub fn apply_all(&self, alloc: Global, terms: &[Term]) -> Result<Terms, OutOfMemory>
        ensures { IfOk result (λ made. made ≡ map (apply self.now.terms) terms.now) }
    {
        let mut made = Terms::with_capacity(alloc, terms.len())?;
        for term in terms {
            made.push(self.apply(alloc, term)?)?;
        }
        Ok(made)
    }

    /// The substitution that does what `self` and then `then` do. Each entry of `self` is copied
    /// with `then` put in, and each entry of `then` that `self` lacks once.
    pub fn compose(&self, alloc: Global, then: &Subst) -> Result<Subst, OutOfMemory>
        ensures { IfOk result (λ made. IsComposed self.now.terms then.now.terms made.terms) }
    {
        let count = self.terms.len().max(then.terms.len());
        let mut terms = Vec::with_capacity(alloc, count)?;
        for place in 0..count {
            terms.push(self.composed_entry(alloc, then, place)?)?;
        }
        Ok(Subst {
            terms: Seq::from_vec(terms),
        })
    }

    /// The entry of the composition at a place.
    fn composed_entry(
        &self,
        alloc: Global,
        then: &Subst,
        place: usize,
    ) -> Result<Option<Term>, OutOfMemory>
        ensures { IfOk result (λ made. made ≡ option_or
            (option_map (apply then.now.terms) (entry self.now.terms place))
            (entry then.now.terms place)) }
    {
        if let Some(term) = self.at(place) {
            return Ok(Some(then.apply(alloc, term)?));
        }
        match then.at(place) {
            Some(term) => Ok(Some(term.copy(alloc)?)),
            None => Ok(None),
        }
    }

    /// Whether each variable of `from` has an entry of its sort, where the variable n of an entry
    /// has the sort at place n of `to`.
    pub fn fits(&self, sig: &Signature, from: &[SortId], to: &[SortId]) -> bool
        ensures { IsTrue result ↔ Fits sig.now from.now to.now self.now.terms }
    {
        for (place, sort) in from.iter().enumerate() {
            if !self.has_sort(sig, to, place, *sort) {
                return false;
            }
        }
        true
    }

    /// Whether there is an entry at a place, and it has the sort.
    fn has_sort(&self, sig: &Signature, ctx: &[SortId], place: usize, sort: SortId) -> bool
        ensures { IsTrue result ↔ ((t : Tree)
            × (entry self.now.terms place ≡ Some t) × Sorted sig.now ctx.now t sort) }
    {
        let Some(term) = self.at(place) else {
            return false;
        };
        match sig.sort_of(ctx, term) {
            Some(found) => found.0 == sort.0,
            None => false,
        }
    }
}

/// Puts the term at a place, with None at the places that are added before it.
fn put(terms: &mut Vec<Option<Term>>, place: usize, term: Term) -> Result<(), OutOfMemory>
    requires { place < 2 ^ 32 }
    ensures set { OnOk result (IsSetTo terms.old.items place term terms.new.items) }
    ensures kept { OnErr result (terms.new.items ≡ terms.old.items) }
{
    if terms.len() <= place {
        terms.resize_with(place + 1, || None)?;
    }
    terms[place] = Some(term);
    Ok(())
}
