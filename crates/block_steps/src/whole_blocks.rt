//! `take_steps`: all steps of a block.

ghost use Rattle.std.specs.Prelude.{◌≡◌, List, [], ◌∷◌, IfOk, Contains};
ghost use Rattle.clause_core.specs.declared.answers.Children.{Children as ChildrenOf};
ghost use Rattle.descent.specs.SortedChildren.{IsNode};
ghost use Rattle.acceptance.specs.Blocks.{StepsMake};
ghost use Rattle.inference_rules.specs.declared.nodes.StepError.TheVariants.{
  OutOfMemory as no_memory,
};
ghost use Rattle.block_steps.specs.Taken.{AreTaken};

use crate::taken_steps::TakenSteps;
use clause_core::{Clause, Step};
use inference_rules::StepError;
use spec_admit::Admitted;
use std::alloc::Global;
use term_core::OutOfMemory;
use term_order::TermOrder;

/// Takes the steps of a block that begins with this clause. Each step is defined at its node.
pub fn take_steps<O: TermOrder>(
    alloc: Global,
    admitted: &Admitted<O>,
    proved: &[u32],
    start: Clause,
    steps: &[Step],
) -> Result<TakenSteps, OutOfMemory>
    requires start { IsNode admitted.now.spec.sig start }
    requires defined { (made : List ChildrenOf) × StepsMake (O.above admitted.now.order)
        admitted.now.spec (Contains proved.now) (start ∷ []) 0 steps.now made }
    ensures { IfOk result (AreTaken (O.above admitted.now.order) admitted.now.spec
        (Contains proved.now) start steps.now) }
{
    clause_core::one_relation(&admitted.order);
    let mut taken = TakenSteps::new(alloc, start)?;
    for step in steps {
        match taken.take(alloc, admitted, proved, step) {
            Ok(()) => {}
            Err(error) => return Err(want_of_memory(error)),
        }
    }
    Ok(taken)
}

/// The error of a step that is defined.
fn want_of_memory(error: StepError) -> OutOfMemory
    requires { error ≡ no_memory }
{
    match error {
        StepError::OutOfMemory => OutOfMemory,
        StepError::Why(_) => unreachable!(),
    }
}
