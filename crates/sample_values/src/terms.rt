//! What terms give under values of their variables.

ghost use Rattle.std.specs.Prelude.{◌≤◌, OnOk, length};

use crate::pool::ValuePool;
use crate::values::Value;
use std::alloc::Global;
use term_core::{OutOfMemory, Term, TermNode, front};

impl<'a> ValuePool<'a> {
    /// The value that the term gives if the variable n has the value at place n of `env`. The row
    /// serves as room for arguments.
    #[cycle(value)]
    pub(crate) fn value(
        &mut self,
        alloc: Global,
        term: &Term,
        env: &[Value],
        row: &mut Vec<Value>,
    ) -> Result<Option<Value>, OutOfMemory>
        ensures { OnOk result (length row.old.items ≤ length row.new.items) }
    {
        match &term.node {
            TermNode::Var(var) => match env.get(var.0 as usize) {
                Some(value) => Ok(Some(*value)),
                None => Ok(None),
            },
            TermNode::App(sym, args) => {
                let base = row.len();
                if !self.push_values(alloc, args.as_slice(), env, row)? {
                    row.truncate(base);
                    return Ok(None);
                }
                let answer = self.apply(alloc, *sym, &row[base..])?;
                row.truncate(base);
                Ok(answer)
            }
        }
    }

    /// Appends the values of the terms, and says whether each has one.
    #[cycle(value)]
    fn push_values(
        &mut self,
        alloc: Global,
        terms: &[Term],
        env: &[Value],
        row: &mut Vec<Value>,
    ) -> Result<bool, OutOfMemory>
        ensures { OnOk result (length row.old.items ≤ length row.new.items) }
    {
        let Some((term, others)) = front(terms) else {
            return Ok(true);
        };
        match self.value(alloc, term, env, row)? {
            None => Ok(false),
            Some(value) => {
                row.push(value)?;
                self.push_values(alloc, others, env, row)
            }
        }
    }
}
