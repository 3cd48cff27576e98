//! `draw_starts`: the starts of an open goal.

ghost use Rattle.std.specs.Prelude.{◌≡◌, OnOk};
ghost use Rattle.std.specs.List.{flat_map};
ghost use Rattle.page_core.specs.Pages.{after};
ghost use Rattle.open_goals.specs.Words.{cut_events, near_events, node_events};
ghost use Rattle.open_goals.specs.Words.{node_word as word_for_nodes, place_events};
ghost use Rattle.open_goals.specs.Words.{start_events, starts_events, stop_events};

use crate::near::Near;
use crate::stops::{OpenStart, Stop};
use crate::words::{draw_cause, draw_gap, draw_source, draw_split};
use clause_core::Clause;
use page_core::{Page, Part, Style};
use proof_words::{Naming, draw_clause, goal_names};
use spec_core::{Goal, Spec};
use std::alloc::Global;
use term_core::{Name, OutOfMemory};

/// Draws the starts of the goal.
pub(crate) fn draw_starts(
    page: &mut Page,
    alloc: Global,
    spec: &Spec,
    goal: &Goal,
    starts: &[OpenStart],
) -> Result<(), OutOfMemory>
    ensures { OnOk result (page.new ≡ after page.old
        (starts_events spec.now goal.now starts.now)) }
{
    let names = goal_names(alloc, goal)?;
    draw_each(page, alloc, spec, &names, starts)
}

/// Draws the starts, with these names of the goal's variables.
fn draw_each(
    page: &mut Page,
    alloc: Global,
    spec: &Spec,
    names: &[Name],
    starts: &[OpenStart],
) -> Result<(), OutOfMemory>
    ensures { OnOk result (page.new ≡ after page.old
        (flat_map (start_events spec.now names.now) starts.now)) }
{
    for start in starts {
        draw_start(page, alloc, spec, names, start)?;
    }
    Ok(())
}

fn draw_start(
    page: &mut Page,
    alloc: Global,
    spec: &Spec,
    names: &[Name],
    start: &OpenStart,
) -> Result<(), OutOfMemory>
    ensures { OnOk result (page.new ≡ after page.old
        (start_events spec.now names.now start.now)) }
{
    let sig = &spec.sig;
    let naming = Naming { alloc, sig, names };
    page.begin(Part::Case)?;
    page.begin(Part::Note)?;
    draw_split(page, &naming, start.split)?;
    page.number(start.nodes)?;
    page.text(Style::Plain, node_word(start.nodes))?;
    draw_cut(page, start.cut)?;
    page.end(Part::Note)?;
    draw_stops(page, alloc, spec, &start.stops)?;
    page.end(Part::Case)
}

/// `node` or `nodes`, after their number.
fn node_word(nodes: usize) -> &'static [u8]
    ensures { result.now ≡ word_for_nodes nodes }
{
    if nodes == 1 { b" node" } else { b" nodes" }
}

fn draw_cut(page: &mut Page, cut: bool) -> Result<(), OutOfMemory>
    ensures { OnOk result (page.new ≡ after page.old (cut_events cut)) }
{
    if cut {
        return page.text(Style::Plain, b"; a greater --nodes has more");
    }
    Ok(())
}

fn draw_stops(
    page: &mut Page,
    alloc: Global,
    spec: &Spec,
    stops: &[Stop],
) -> Result<(), OutOfMemory>
    ensures { OnOk result (page.new ≡ after page.old
        (flat_map (stop_events spec.now) stops.now)) }
{
    for stop in stops {
        draw_stop(page, alloc, spec, stop)?;
    }
    Ok(())
}

fn draw_stop(page: &mut Page, alloc: Global, spec: &Spec, stop: &Stop) -> Result<(), OutOfMemory>
    ensures { OnOk result (page.new ≡ after page.old (stop_events spec.now stop.now)) }
{
    let sig = &spec.sig;
    let names = stop.names.as_slice();
    let naming = Naming { alloc, sig, names };
    page.begin(Part::Case)?;
    draw_node(page, &naming, stop)?;
    draw_nears(page, spec.goals.as_slice(), &naming, &stop.nears)?;
    page.end(Part::Case)
}

/// Draws the clause, and why the strategy stops there.
fn draw_node(page: &mut Page, naming: &Naming<'_>, stop: &Stop) -> Result<(), OutOfMemory>
    ensures { OnOk result (page.new ≡ after page.old
        (node_events naming.now.sig.now naming.now.names.now stop.now)) }
{
    draw_place(page, naming, &stop.stuck.clause)?;
    page.begin(Part::Step)?;
    draw_cause(page, naming, stop.stuck.cause, stop.next)?;
    page.end(Part::Step)
}

/// Draws the clause of a node.
fn draw_place(page: &mut Page, naming: &Naming<'_>, clause: &Clause) -> Result<(), OutOfMemory>
    ensures { OnOk result (page.new ≡ after page.old
        (place_events naming.now.sig.now naming.now.names.now clause.now)) }
{
    page.begin(Part::Note)?;
    page.text(Style::Plain, b"stops at ")?;
    draw_clause(page, naming, None, clause)?;
    page.end(Part::Note)
}

fn draw_nears(
    page: &mut Page,
    goals: &[Goal],
    naming: &Naming<'_>,
    nears: &[Near],
) -> Result<(), OutOfMemory>
    ensures { OnOk result (page.new ≡ after page.old
        (flat_map (near_events goals.now naming.now.sig.now naming.now.names.now) nears.now)) }
{
    for near in nears {
        draw_near(page, goals, naming, near)?;
    }
    Ok(())
}

fn draw_near(
    page: &mut Page,
    goals: &[Goal],
    naming: &Naming<'_>,
    near: &Near,
) -> Result<(), OutOfMemory>
    ensures { OnOk result (page.new ≡ after page.old
        (near_events goals.now naming.now.sig.now naming.now.names.now near.now)) }
{
    page.begin(Part::Step)?;
    draw_source(page, goals, near.source)?;
    draw_gap(page, naming, &near.gap)?;
    page.end(Part::Step)
}
