//! What a stuck clause becomes by the equation that is to be proved, used either way.

ghost use Rattle.std.specs.Prelude.{◌<◌, length};

use crate::copies::keep;
use clause_core::{Clause, among, copy_equations, instance_within, is_identity, side};
use matching::matches;
use spec_core::{Equation, Signature};
use std::alloc::Global;
use substitutions::Subst;
use term_core::{OutOfMemory, SymId, Term, TermNode, Terms, copy_all};

/// The most clauses that a stuck clause becomes.
const MOST_REWRITTEN: usize = 5;

/// A clause whose only conclusion is the equation, and a clause that is rewritten by it.
#[derive(Clone, Copy)]
struct Rewriting<'a> {
    sig: &'a Signature,
    lemma: &'a Clause,
    equation: &'a Equation,
    here: &'a Clause,
}

/// The stuck clause with one term in its conclusions rewritten by the only conclusion of the
/// clause, from left to right or from right to left, whichever side is greater. The places come in
/// the order of trying, arguments before their symbol.
pub(crate) fn rewritten(
    alloc: Global,
    sig: &Signature,
    stuck: &Clause,
    clause: &Clause,
) -> Result<Vec<Clause>, OutOfMemory> {
    let [equation] = clause.conclusions.as_slice() else {
        return Ok(Vec::new(alloc));
    };
    let rewriting = Rewriting {
        sig,
        lemma: clause,
        equation,
        here: stuck,
    };
    let mut found = Vec::new(alloc);
    for conclusions in rewriting.conclusions(alloc)? {
        keep(
            alloc,
            stuck.with_equations(alloc, true, conclusions)?,
            &mut found,
        )?;
    }
    found.truncate(MOST_REWRITTEN);
    Ok(found)
}

impl<'a> Rewriting<'a> {
    /// The conclusions of the clause that is rewritten, with one term in them rewritten.
    fn conclusions(&self, alloc: Global) -> Result<Vec<Vec<Equation>>, OutOfMemory> {
        let conclusions = self.here.conclusions.as_slice();
        let mut made = Vec::new(alloc);
        for (index, equation) in conclusions.iter().enumerate() {
            let versions = self.equations(alloc, equation)?;
            add_exchanged(alloc, conclusions, index, versions, &mut made)?;
        }
        Ok(made)
    }

    /// The equation with one term in it rewritten, those with a new left side first.
    fn equations(&self, alloc: Global, equation: &Equation) -> Result<Vec<Equation>, OutOfMemory> {
        let mut made = Vec::new(alloc);
        for left in self.terms(alloc, &equation.left)? {
            let right = equation.right.copy(alloc)?;
            made.push(Equation { left, right })?;
        }
        self.add_rights(alloc, equation, &mut made)?;
        Ok(made)
    }

    fn add_rights(
        &self,
        alloc: Global,
        equation: &Equation,
        made: &mut Vec<Equation>,
    ) -> Result<(), OutOfMemory> {
        for right in self.terms(alloc, &equation.right)? {
            let left = equation.left.copy(alloc)?;
            made.push(Equation { left, right })?;
        }
        Ok(())
    }

    /// The term with one term in it rewritten.
    #[cycle(rewriting)]
    fn terms(&self, alloc: Global, term: &Term) -> Result<Vec<Term>, OutOfMemory> {
        let mut made = match &term.node {
            TermNode::Var(_) => Vec::new(alloc),
            TermNode::App(sym, args) => self.applications(alloc, *sym, args.as_slice())?,
        };
        if let Some(new) = self.at_root(alloc, term, true)? {
            made.push(new)?;
        }
        if let Some(new) = self.at_root(alloc, term, false)? {
            made.push(new)?;
        }
        Ok(made)
    }

    /// The application of the symbol to the terms, with one term in these rewritten.
    #[cycle(rewriting)]
    fn applications(
        &self,
        alloc: Global,
        sym: SymId,
        args: &[Term],
    ) -> Result<Vec<Term>, OutOfMemory> {
        let mut made = Vec::new(alloc);
        for (index, arg) in args.iter().enumerate() {
            let versions = self.terms(alloc, arg)?;
            add_applications(alloc, sym, args, index, versions, &mut made)?;
        }
        Ok(made)
    }

    /// The term rewritten at its root by the equation, from left to right if `left` is true. All
    /// variables of the clause are to occur in the side that is matched, and its premises to hold.
    fn at_root(&self, alloc: Global, term: &Term, left: bool) -> Result<Option<Term>, OutOfMemory> {
        let Some(theta) = matches(alloc, side(self.equation, left), term)? else {
            return Ok(None);
        };
        if !self.can_use(alloc, &theta)? {
            return Ok(None);
        }
        let new = theta.apply(alloc, side(self.equation, !left))?;
        if new.same(term) {
            return Ok(None);
        }
        Ok(Some(new))
    }

    /// Whether each variable has a term of its sort, and the instance of the clause is within the
    /// limits and has premises that hold.
    fn can_use(&self, alloc: Global, theta: &Subst) -> Result<bool, OutOfMemory> {
        let own = self.lemma.ctx.as_slice();
        if !theta.fits(self.sig, own, self.here.ctx.as_slice()) {
            return Ok(false);
        }
        if !instance_within(self.lemma, theta) {
            return Ok(false);
        }
        self.premises_hold(alloc, theta)
    }

    /// Whether each premise becomes an identity, or a premise of the clause that is rewritten.
    fn premises_hold(&self, alloc: Global, theta: &Subst) -> Result<bool, OutOfMemory> {
        for premise in &self.lemma.premises {
            let made = Equation {
                left: theta.apply(alloc, &premise.left)?,
                right: theta.apply(alloc, &premise.right)?,
            };
            if !is_identity(&made) && !among(&made, self.here.premises.as_slice()) {
                return Ok(false);
            }
        }
        Ok(true)
    }
}

/// Adds the equations with each of the versions in the place of the one of this index.
fn add_exchanged(
    alloc: Global,
    equations: &[Equation],
    index: usize,
    versions: Vec<Equation>,
    made: &mut Vec<Vec<Equation>>,
) -> Result<(), OutOfMemory>
    requires { index < length equations.now }
{
    for version in versions {
        let mut changed = copy_equations(alloc, equations)?;
        changed[index] = version;
        made.push(changed)?;
    }
    Ok(())
}

/// Adds the applications with each of the versions in the place of the argument of this index.
fn add_applications(
    alloc: Global,
    sym: SymId,
    args: &[Term],
    index: usize,
    versions: Vec<Term>,
    made: &mut Vec<Term>,
) -> Result<(), OutOfMemory>
    requires { index < length args.now }
{
    for version in versions {
        let mut changed = copy_all(alloc, args)?;
        changed[index] = version;
        made.push(Term::app(sym, Terms::from_vec(alloc, changed)?))?;
    }
    Ok(())
}
