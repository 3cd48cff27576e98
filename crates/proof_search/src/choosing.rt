//! The chosen step of a node: the first of the entries.

ghost use Rattle.std.specs.Prelude.{◌≡◌, ◌<◌, Some, List, IfOk, length, slice_get};
ghost use Rattle.inference_rules.specs.Answers.{clauses_of};
ghost use Rattle.inference_rules.specs.Nodes.{AreNodes};
ghost use Rattle.routine_proof.specs.Blocks.{clauses};
ghost use Rattle.routine_proof.specs.Candidates.{Gives, each};
ghost use Rattle.routine_proof.specs.Entries.{cover};
ghost use Rattle.routine_proof.specs.First.{IsFirst};
ghost use Rattle.routine_proof.specs.Routine.{makes};
ghost use Rattle.routine_proof.specs.Ways.{Node as WayNode};
ghost use Rattle.proof_search.specs.Building.{IsWhole};
ghost use Rattle.proof_search.specs.Chosen.{all_entries, candidates_of};
ghost use Rattle.proof_search.specs.FallingSides.{KeepsSides};
ghost use Rattle.proof_search.specs.Settings.{IsSetting};
ghost use Rattle.proof_search.specs.Starting.{IsListed};
ghost use Rattle.proof_search.specs.Taking.{IsAt, IsFound};

use crate::at::At;
use crate::building::Building;
use crate::covering::{cover_of, demanded_cover};
use crate::numbered::{Numbered, first_match, first_numbered};
use crate::referring::{first_lemma_instance, first_subsumption};
use crate::rewriting::{first_hypothesis_use, first_lemma_use};
use crate::ruling::{ByRule, first_ruling};
use crate::setting::Setting;
use routine_proof::Move;
use std::alloc::Global;
use term_core::{OutOfMemory, VarId};
use term_order::TermOrder;

/// An entry of the list by which the step of a node is chosen.
#[derive(Clone, Copy)]
pub(crate) enum Entry {
    Trivials,
    Matches,
    Absurds,
    PremiseDecompositions,
    Clashes,
    Solutions,
    RuleUses,
    ConclusionDecompositions,
    Subsumptions,
    LemmaInstances,
    HypothesisUses,
    LemmaUses,
    CaseSplits,
    DemandedCovers,
}

impl Entry {
    /// All entries, in the order in which they are tried.
    pub(crate) const ALL: [Entry; 14] = [
        Entry::Trivials,
        Entry::Matches,
        Entry::Absurds,
        Entry::PremiseDecompositions,
        Entry::Clashes,
        Entry::Solutions,
        Entry::RuleUses,
        Entry::ConclusionDecompositions,
        Entry::Subsumptions,
        Entry::LemmaInstances,
        Entry::HypothesisUses,
        Entry::LemmaUses,
        Entry::CaseSplits,
        Entry::DemandedCovers,
    ];

    /// The first of the entry's steps that is defined.
    fn first<O: TermOrder>(
        self,
        alloc: Global,
        order: &O,
        at: &At,
    ) -> Result<Option<Move>, OutOfMemory>
        requires at { IsAt at.now }
        requires sides { KeepsSides (O.above order.now) at.now.setting.now at.now.building.now }
        ensures { IfOk result (IsFound (O.above order.now) at.now (candidates_of at.now self)) }
    {
        match self {
            Entry::Trivials => first_numbered(alloc, order, at, Numbered::Trivial),
            Entry::Matches => first_match(alloc, order, at),
            Entry::Absurds => first_numbered(alloc, order, at, Numbered::Absurd),
            Entry::PremiseDecompositions => {
                first_numbered(alloc, order, at, Numbered::DecomposePremise)
            }
            Entry::Clashes => first_numbered(alloc, order, at, Numbered::Clash),
            Entry::Solutions => first_numbered(alloc, order, at, Numbered::Solve),
            Entry::RuleUses => first_ruling(alloc, order, at, ByRule::Rule),
            Entry::ConclusionDecompositions => {
                first_numbered(alloc, order, at, Numbered::DecomposeConclusion)
            }
            Entry::Subsumptions => first_subsumption(alloc, order, at),
            Entry::LemmaInstances => first_lemma_instance(alloc, order, at),
            Entry::HypothesisUses => first_hypothesis_use(alloc, order, at),
            Entry::LemmaUses => first_lemma_use(alloc, order, at),
            Entry::CaseSplits => first_ruling(alloc, order, at, ByRule::Case),
            Entry::DemandedCovers => demanded_cover(alloc, order, at),
        }
    }
}

/// The chosen step of a node with what it makes there, or None if no entry of the list gives
/// one.
pub(crate) fn chosen<'a, O: TermOrder>(
    alloc: Global,
    order: &O,
    setting: &'a Setting<'a>,
    building: &'a Building,
    node: u32,
) -> Result<Option<Move>, OutOfMemory>
    requires setting { IsSetting setting.now }
    requires whole { IsWhole building.now }
    requires in_range { node < length building.now.block.nodes.items }
    requires nodes { AreNodes setting.now.spec.now.sig (clauses_of building.now.block.nodes.items) }
    requires sides { KeepsSides (O.above order.now) setting.now building.now }
    ensures { IfOk result (IsListed (O.above order.now) setting.now.spec.now setting.now.lemmas.now
        building.now node) }
{
    let at = At::new(alloc, setting, building, node)?;
    first_entry(alloc, order, &at)
}

/// The cover of the variable at a node with what it makes there.
pub(crate) fn covered<'a, O: TermOrder>(
    alloc: Global,
    order: &O,
    setting: &'a Setting<'a>,
    building: &'a Building,
    node: u32,
    variable: VarId,
) -> Result<Option<Move>, OutOfMemory>
    requires setting { IsSetting setting.now }
    requires whole { IsWhole building.now }
    requires in_range { node < length building.now.block.nodes.items }
    requires nodes { AreNodes setting.now.spec.now.sig (clauses_of building.now.block.nodes.items) }
    ensures { IfOk result (λ found. (made : List WayNode) (here : WayNode) →
        clauses made ≡ clauses_of building.now.block.nodes.items → slice_get made node ≡ Some here →
        let spec = setting.now.spec.now in
        let lemmas = setting.now.lemmas.now in
        IsFirst
        (Gives (makes (O.above order.now) spec lemmas (clauses made) here.clause))
        (cover spec here.clause variable.0) found) }
{
    let at = At::new(alloc, setting, building, node)?;
    cover_of(alloc, order, &at, variable)
}

/// The first of the steps of all entries that is defined.
fn first_entry<O: TermOrder>(alloc: Global, order: &O, at: &At) -> Result<Option<Move>, OutOfMemory>
    requires at { IsAt at.now }
    requires sides { KeepsSides (O.above order.now) at.now.setting.now at.now.building.now }
    ensures { IfOk result (IsFound (O.above order.now) at.now
        (each all_entries (candidates_of at.now))) }
{
    for entry in Entry::ALL {
        let found = entry.first(alloc, order, at)?;
        if found.is_some() {
            return Ok(found);
        }
    }
    Ok(None)
}
