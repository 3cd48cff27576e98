//! Values of sorts by their depth, as lists.
use crate::rows::{MANY, product};
use anyhow::{Context, Result, bail};
use spec_core::{Signature, VarInfo};
use std::alloc::Global;
use term_core::{SortId, SymId, Term, Terms};

/// No value of a search has more symbols.
const MOST_SYMBOLS: u32 = 255;

/// For each sort by its number its values of at most a depth, the first [`MANY`] of them.
#[derive(Drop)]
pub struct PlainValues {
    lists: Vec<Vec<Term>>,
}

impl PlainValues {
    /// No sort has a value of depth 0.
    pub fn none(alloc: Global, sig: &Signature) -> Result<PlainValues> {
        let mut lists = Vec::new(alloc);
        for _ in 0..sig.sorts() {
            lists.push(Vec::new(alloc))?;
        }
        Ok(PlainValues { lists })
    }

    /// The values of at most one more than this depth.
    pub fn deeper(&self, alloc: Global, sig: &Signature) -> Result<PlainValues> {
        let mut lists = Vec::new(alloc);
        for sort in 0..sig.sorts() {
            lists.push(self.deeper_list(alloc, sig, SortId(sort))?)?;
        }
        Ok(PlainValues { lists })
    }

    /// The first rows of values of the variables.
    pub fn rows(&self, alloc: Global, vars: &[VarInfo]) -> Result<Vec<Terms>> {
        let mut lists = Vec::new(alloc);
        for var in vars {
            lists.push(self.list(var.sort)?)?;
        }
        product(alloc, &lists)
    }

    fn list(&self, sort: SortId) -> Result<&[Term]> {
        let list = self
            .lists
            .get(sort.0 as usize)
            .context("a sort has no list")?;
        Ok(list.as_slice())
    }

    /// The applications of the sort's constructors, in their order.
    fn deeper_list(&self, alloc: Global, sig: &Signature, sort: SortId) -> Result<Vec<Term>> {
        let mut made = Vec::new(alloc);
        for number in 0..sig.constructors() {
            let info = sig.info(SymId(number));
            if info.result.0 == sort.0 {
                self.push_applications(alloc, SymId(number), info.args.as_slice(), &mut made)?;
            }
        }
        Ok(made)
    }

    /// Adds the applications of the constructor to values of these sorts, without those of too many
    /// symbols. These may not appear if a list was cut: what comes after them would be missing.
    fn push_applications(
        &self,
        alloc: Global,
        sym: SymId,
        sorts: &[SortId],
        made: &mut Vec<Term>,
    ) -> Result<()> {
        let mut lists = Vec::new(alloc);
        for sort in sorts {
            lists.push(self.list(*sort)?)?;
        }
        let rows = product(alloc, &lists)?;
        let cut = rows.len() >= MANY;
        for row in rows {
            let value = Term::app(sym, row);
            if value.size(MOST_SYMBOLS + 1) <= MOST_SYMBOLS {
                if made.len() < MANY {
                    made.push(value)?;
                }
            } else if cut {
                bail!("a list is cut before a value of too many symbols");
            }
        }
        Ok(())
    }
}
