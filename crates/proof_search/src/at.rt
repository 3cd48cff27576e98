//! A node whose step is sought, and one call of the table there.

ghost use Rattle.std.specs.Prelude.{◌≡◌, ◌↔◌, ◌<◌, IsTrue, IfOk, length};
ghost use Rattle.std.specs.List.{AllByRecursion};
ghost use Rattle.clause_core.specs.declared.answers.Child.{Child as ChildOf};
ghost use Rattle.clause_core.specs.declared.answers.Reference.{Reference as ReferenceOf};
ghost use Rattle.clause_core.specs.declared.clauses.Relation.TheVariants.{Less};
ghost use Rattle.clause_core.specs.NumberedEquations.{equations};
ghost use Rattle.inference_rules.specs.Answers.{clauses_of};
ghost use Rattle.inference_rules.specs.Nodes.{AreNodes};
ghost use Rattle.routine_proof.specs.Candidates.{Meets};
ghost use Rattle.proof_search.specs.Building.{IsWhole};
ghost use Rattle.proof_search.specs.Leading.{MayClose};
ghost use Rattle.proof_search.specs.Settings.{IsSetting};
ghost use Rattle.proof_search.specs.SideSpines.{listed_spines};
ghost use Rattle.proof_search.specs.Taking.{IsAt, IsTaken, SaysAt, asks_of, IsNotNeither};

use crate::building::Building;
use crate::setting::Setting;
use crate::side_spines::{SideSpines, listed};
use clause_core::{Child, Children, Clause, Reference, Relation, Step, one_answer};
use clause_places::{Spots, places_are_there};
use fitting_lists::LeadingPlace;
use inference_rules::{Node, StepError, children};
use routine_proof::Move;
use std::alloc::Global;
use term_core::OutOfMemory;
use term_order::TermOrder;

/// A node whose step is sought: its number and its clause, with the places there, over the nodes so
/// far, which are those of the block that is being built.
#[derive(Drop)]
pub(crate) struct At<'a> {
    pub(crate) setting: &'a Setting<'a>,
    pub(crate) nodes: &'a [Node],
    pub(crate) building: &'a Building,
    pub(crate) number: u32,
    pub(crate) here: &'a Clause,
    pub(crate) spots: Spots<'a>,
    /// The spines of the sides of all premises, and of all conclusions.
    pub(crate) premise_spines: Vec<SideSpines>,
    pub(crate) conclusion_spines: Vec<SideSpines>,
}

impl<'a> At<'a> {
    /// The node with this number. Its places are listed once, with their terms, for all entries.
    pub(crate) fn new(
        alloc: Global,
        setting: &'a Setting<'a>,
        building: &'a Building,
        number: u32,
    ) -> Result<At<'a>, OutOfMemory>
        requires setting { IsSetting setting.now }
        requires whole { IsWhole building.now }
        requires in_range { number < length building.now.block.nodes.items }
        requires nodes { AreNodes setting.now.spec.now.sig
            (clauses_of building.now.block.nodes.items) }
        ensures is { IfOk result IsAt }
        ensures same { IfOk result (λ at. (at.setting.now ≡ setting.now)
            × (at.building.now ≡ building.now) × (at.number ≡ number)) }
    {
        places_are_there();
        let nodes = building.block.nodes.as_slice();
        let here = &nodes[number as usize].clause;
        let spots = Spots::of(alloc, here)?;
        let premises = here.equations(false);
        let premise_spines = listed(alloc, premises)?;
        let conclusions = here.equations(true);
        let conclusion_spines = listed(alloc, conclusions)?;
        Ok(At {
            setting,
            nodes,
            building,
            number,
            here,
            spots,
            premise_spines,
            conclusion_spines,
        })
    }

    /// The spines of the conclusions if true, of the premises if false.
    pub(crate) fn spines(&self, conclusion: bool) -> &[SideSpines]
        requires { IsAt self.now }
        ensures { result.now ≡ listed_spines (equations conclusion self.now.here.now) }
    {
        if conclusion {
            self.conclusion_spines.as_slice()
        } else {
            self.premise_spines.as_slice()
        }
    }

    /// Whether an equation at this place of another clause may become one of the node's of its
    /// kind, as written or swapped, by their spines.
    pub(crate) fn may_close(&self, place: &Option<LeadingPlace>) -> bool
        requires { IsAt self.now }
        ensures { IsTrue result ↔ MayClose self.now.here.now place.now }
    {
        let Some(place) = place else {
            return false;
        };
        for own in self.spines(place.conclusion) {
            if own.may_close(place) {
                return true;
            }
        }
        false
    }
}

/// What is asked of the relations that a step makes, beyond the table of steps.
#[derive(Clone, Copy)]
pub(crate) enum Asked {
    Nothing,
    ReferenceNotNeither,
    AllLess,
}

impl Asked {
    fn is_met(self, made: &Children) -> bool
        ensures { IsTrue result ↔ Meets (asks_of self) made.now }
    {
        match self {
            Asked::Nothing => true,
            Asked::ReferenceNotNeither => are_not_neither(made.refs.as_slice()),
            Asked::AllLess => {
                children_are_less(made.clauses.as_slice()) && are_less(made.refs.as_slice())
            }
        }
    }
}

fn children_are_less(children: &[Child]) -> bool
    ensures { IsTrue result ↔ AllByRecursion (λ (d : ChildOf). d.relation ≡ Less) children.now }
{
    children
        .iter()
        .all(|child| child.relation == Relation::Less)
}

fn are_less(refs: &[Reference]) -> bool
    ensures { IsTrue result ↔ AllByRecursion (λ (r : ReferenceOf). r.relation ≡ Less) refs.now }
{
    refs.iter().all(|found| found.relation == Relation::Less)
}

fn are_not_neither(refs: &[Reference]) -> bool
    ensures { IsTrue result ↔ AllByRecursion IsNotNeither refs.now }
{
    refs.iter().all(|found| found.relation != Relation::Neither)
}

/// The step with what it makes at the node, if the table defines it and its relations are those
/// that are asked for.
pub(crate) fn taken<O: TermOrder>(
    alloc: Global,
    order: &O,
    at: &At,
    step: Step,
    asks: Asked,
) -> Result<Option<Move>, OutOfMemory>
    requires { IsAt at.now }
    ensures { IfOk result (IsTaken (SaysAt (O.above order.now) at.now) step (asks_of asks)) }
{
    one_answer(order);
    let setting = at.setting;
    let lemmas = setting.lemmas;
    match children(
        alloc,
        setting.spec,
        order,
        lemmas,
        at.nodes,
        at.number,
        &step,
    ) {
        Ok(made) => {
            if asks.is_met(&made) {
                return Ok(Some(Move { step, made }));
            }
            Ok(None)
        }
        Err(StepError::Why(_)) => Ok(None),
        Err(StepError::OutOfMemory) => Err(OutOfMemory),
    }
}
