//! Whether the block of a start is a proof.

ghost use Rattle.std.specs.Prelude.{IfOk};
ghost use Rattle.spec_core.specs.WellSorted.{GoalIsSorted};
ghost use Rattle.clause_core.specs.Limits.{IsWithin};
ghost use Rattle.clause_core.specs.Tidied.{goal_clause};
ghost use Rattle.proof_script.specs.Ranges.{ClaimIsInRange};
ghost use Rattle.proof_search.specs.FallingSides.{LemmasFall};
ghost use Rattle.proof_search.specs.Guided.{proved_by};
ghost use Rattle.proof_search.specs.Proving.{IsShortBlock, IsTried};
ghost use Rattle.proof_search.specs.Settings.{IsSetting};
ghost use Rattle.proof_search.specs.Starting.{start_of};

use crate::building::first_of;
use crate::setting::Setting;
use crate::starting::{Built, Start, block};
use acceptance::{Allowed, allowed};
use clause_core::{Block, Claim, Outcome, Step, of_goal};
use proof_script::{MOST_CLAIM_BYTES, print_claim};
use spec_core::{Goal, Spec};
use std::alloc::Global;
use term_core::{OutOfMemory, Seq};
use term_order::TermOrder;

/// What is found from a start.
#[derive(Drop)]
pub(crate) enum Tried {
    /// The start's block, which is a proof.
    Proof(Block),
    /// The start gives no proof. What was built begins with this step, if it has one.
    Not { first: Option<Step> },
}

/// The routine proof of the goal from this start with at most `most` nodes.
pub(crate) fn proof_from<O: TermOrder>(
    alloc: Global,
    order: &O,
    setting: &Setting,
    goal: &Goal,
    start: Start,
    most: u32,
) -> Result<Tried, OutOfMemory>
    requires setting { IsSetting setting.now }
    requires sides { LemmasFall (O.above order.now) setting.now }
    requires sorted { GoalIsSorted setting.now.spec.now.sig goal.now }
    requires within { IsWithin (goal_clause goal.now) }
    ensures { IfOk result (IsTried (O.above order.now) setting.now.spec.now
        setting.now.lemmas.now goal.now most (start_of start)) }
{
    clause_core::one_answer(order);
    clause_core::one_relation(order);
    clause_core::tidying_laws();
    let clause = of_goal(alloc, goal)?;
    let building = match block(alloc, order, setting, start, clause, most)? {
        Built::Not { first } => return Ok(Tried::Not { first }),
        Built::Block(building) => building,
    };
    match allowed(alloc, &building.block.links)? {
        Allowed::Not { .. } => Ok(Tried::Not {
            first: building.first_step(),
        }),
        Allowed::All => {
            let block = Block {
                steps: Seq::from_vec(building.steps),
            };
            short_block(alloc, setting.spec, goal, block)
        }
    }
}

/// The block, if the claim that it proves the goal isn't too long for a report.
pub(crate) fn short_block(
    alloc: Global,
    spec: &Spec,
    goal: &Goal,
    block: Block,
) -> Result<Tried, OutOfMemory>
    requires { ClaimIsInRange spec.now.sig (proved_by goal.now block) }
    ensures { IfOk result (IsShortBlock spec.now goal.now block) }
{
    let claim = Claim {
        goal: goal.name.copy(alloc)?,
        outcome: Outcome::Proved(block),
    };
    let text = print_claim(alloc, &spec.sig, &claim)?;
    let Claim {
        goal: _name,
        outcome,
    } = claim;
    match outcome {
        Outcome::Proved(block) => {
            if text.len() > MOST_CLAIM_BYTES {
                return Ok(Tried::Not {
                    first: first_of(block.steps.into_vec()),
                });
            }
            Ok(Tried::Proof(block))
        }
        _other => unreachable!(),
    }
}
