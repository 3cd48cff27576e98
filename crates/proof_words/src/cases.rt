//! `draw_case`: the heading of a case.

ghost use Rattle.std.specs.Prelude.{◌≡◌, OnOk, drop, option_copied};
ghost use Rattle.page_core.specs.Pages.{after};
ghost use Rattle.proof_words.specs.CaseEvents.{case_events, part_events, pattern_events};
ghost use Rattle.proof_words.specs.CaseEvents.{premise_events};

use crate::clauses::draw_equations;
use crate::naming::{Naming, draw_variable};
use crate::terms::draw_side;
use clause_core::{Clause, Step};
use page_core::{Page, Style};
use spec_core::{Equation, Signature};
use std::alloc::Global;
use term_core::{Name, OutOfMemory, Term};

/// A node that is a case of a split: the names at its parent, those of the variables of the pattern
/// that it comes from, its own names, and the number of its parent's premises.
#[derive(Clone, Copy)]
pub struct CaseAt<'a> {
    pub alloc: Global,
    pub sig: &'a Signature,
    pub names: &'a [Name],
    pub pattern_names: &'a [Name],
    pub child_names: &'a [Name],
    pub premises: usize,
}

/// Draws the heading of the child at this place, from 0 on, of the step: a pattern for a variable,
/// the premises that the child has beyond those of its parent, or else its number.
pub fn draw_case(
    page: &mut Page,
    case: &CaseAt<'_>,
    step: &Step,
    place: u32,
    child: &Clause,
) -> Result<(), OutOfMemory>
    ensures { OnOk result (page.new ≡ after page.old
        (case_events case.now.sig.now case.now.names.now case.now.pattern_names.now
        case.now.child_names.now case.now.premises step.now place child.now)) }
{
    match step {
        Step::Cover(variable, patterns) => {
            let pattern = patterns.as_slice().get(place as usize);
            draw_pattern_case(page, case, variable.0, pattern, place)
        }
        _ => draw_premise_case(page, case, place, further(child, case.premises)),
    }
}

/// Draws the pattern for the variable, or the number of the case if there is none.
fn draw_pattern_case(
    page: &mut Page,
    case: &CaseAt<'_>,
    variable: u32,
    pattern: Option<&Term>,
    place: u32,
) -> Result<(), OutOfMemory>
    ensures { OnOk result (page.new ≡ after page.old
        (pattern_events case.now.sig.now case.now.names.now case.now.pattern_names.now place
        variable (option_copied pattern.entry))) }
{
    let Some(pattern) = pattern else {
        return draw_part(page, place);
    };
    let naming = Naming {
        alloc: case.alloc,
        sig: case.sig,
        names: case.names,
    };
    let inner = Naming {
        alloc: case.alloc,
        sig: case.sig,
        names: case.pattern_names,
    };
    draw_variable(page, &naming, Style::Plain, variable as usize)?;
    page.text(Style::Plain, b" = ")?;
    draw_side(page, &inner, None, pattern)
}

/// Draws the premises, or the number of the case if there are none.
fn draw_premise_case(
    page: &mut Page,
    case: &CaseAt<'_>,
    place: u32,
    premises: &[Equation],
) -> Result<(), OutOfMemory>
    ensures { OnOk result (page.new ≡ after page.old
        (premise_events case.now.sig.now case.now.child_names.now place premises.now)) }
{
    if let [] = premises {
        return draw_part(page, place);
    }
    let naming = Naming {
        alloc: case.alloc,
        sig: case.sig,
        names: case.child_names,
    };
    draw_equations(page, &naming, None, false, premises)
}

fn draw_part(page: &mut Page, place: u32) -> Result<(), OutOfMemory>
    ensures { OnOk result (page.new ≡ after page.old (part_events place)) }
{
    page.text(Style::Plain, b"part ")?;
    page.number(place as usize + 1)
}

/// The clause's premises after this many.
fn further(clause: &Clause, premises: usize) -> &[Equation]
    ensures { result.now ≡ drop premises clause.now.premises }
{
    let all = clause.premises.as_slice();
    if premises > all.len() {
        return &[];
    }
    &all[premises..]
}
