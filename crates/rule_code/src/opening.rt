//! The tests of one left side.

ghost use Rattle.std.specs.Prelude.{◌≡◌, ◌++◌, [], IfOk};
ghost use Rattle.rule_code.specs.Matching.{Opens};

use crate::patterns::Patterns;
use crate::tests::Test;
use std::alloc::Global;
use term_core::{OutOfMemory, Term, TermNode};

/// The tests of a left side's arguments, and the pattern of each slot.
pub(crate) fn open<'a>(
    alloc: Global,
    patterns: &'a [Term],
) -> Result<(Vec<Test>, Patterns<'a>), OutOfMemory>
    ensures { IfOk result (λ r. Opens patterns.now 0 r.0.items r.1) }
{
    let mut tests = Vec::new(alloc);
    let mut opened = Patterns::new(alloc);
    opened.add(patterns)?;
    let mut slot = 0;
    while slot < opened.len() {
        let pattern = opened.at(slot);
        match &pattern.node {
            TermNode::Var(_) => {}
            TermNode::App(sym, args) => {
                tests.push(Test {
                    slot,
                    sym: sym.0,
                    count: args.len(),
                })?;
                opened.add(args.as_slice())?;
            }
        }
        slot += 1;
    }
    Ok((tests, opened))
}
