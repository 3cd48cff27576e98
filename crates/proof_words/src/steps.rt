//! `draw_step`: what a step says.

ghost use Rattle.std.specs.Prelude.{◌≡◌, OnOk, option_copied};
ghost use Rattle.page_core.specs.Pages.{after};
ghost use Rattle.proof_words.specs.StepEvents.{decompose_events, equation_name as name_of_equation};
ghost use Rattle.proof_words.specs.StepEvents.{generalize_events, marked_place as place_marked_by};
ghost use Rattle.proof_words.specs.StepEvents.{match_events, numbered_rule, rule_step_events, said};
ghost use Rattle.proof_words.specs.StepEvents.{split_events, step_events, trivial_events};

use crate::naming::{Naming, draw_variable};
use crate::references::{direction, draw_by_lemma, draw_hyp, draw_lemma_step, draw_subsume};
use crate::rules::draw_rule;
use crate::terms::draw_side;
use clause_core::{Place, Step};
use page_core::{Page, Style};
use spec_core::{Rule, Spec};
use std::alloc::Global;
use term_core::{Name, OutOfMemory, Term, VarId};

/// A node whose step is drawn: the number of its goal, the names at the node, and those at the node
/// that its step refers to, if it refers to one.
#[derive(Clone, Copy)]
pub struct StepAt<'a> {
    pub alloc: Global,
    pub spec: &'a Spec,
    pub goal: u32,
    pub names: &'a [Name],
    pub referred: &'a [Name],
}

impl<'a> StepAt<'a> {
    /// What the node's terms are written with.
    pub(crate) fn naming(&self) -> Naming<'a>
        ensures sig { result.sig.now ≡ self.now.spec.now.sig }
        ensures names { result.names.now ≡ self.now.names.now }
    {
        Naming {
            alloc: self.alloc,
            sig: &self.spec.sig,
            names: self.names,
        }
    }
}

/// Draws what the step says, in words.
pub fn draw_step(page: &mut Page, at: &StepAt<'_>, step: &Step) -> Result<(), OutOfMemory>
    ensures { OnOk result (page.new ≡ after page.old
        (step_events at.now.spec.now at.now.goal at.now.names.now at.now.referred.now step.now)) }
{
    match step {
        Step::Trivial(number) => draw_trivial(page, *number),
        Step::Match(conclusion, premise) => draw_match(page, *conclusion, *premise),
        Step::Absurd(number) => draw_said(page, b"premise ", *number, b" can't hold"),
        Step::Subsume(node, terms) => draw_subsume(page, at, *node, terms.as_slice()),
        Step::ByLemma(name, terms) => draw_by_lemma(page, at, name.as_bytes(), terms.as_slice()),
        Step::Rule(_, number) => draw_rule_step(page, at, b"by rule ", *number),
        Step::Case(_, number) => {
            draw_rule_step(page, at, b"split on the tests of rule ", *number)
        }
        Step::Decompose(conclusion, number) => draw_decompose(page, *conclusion, *number),
        Step::Clash(number) => draw_said(page, b"conclusion ", *number, b" can't hold: left out"),
        Step::Drop(conclusion, number) => {
            draw_said(page, equation_name(*conclusion), *number, b" is left out")
        }
        Step::Solve(number) => {
            draw_said(page, b"premise ", *number, b" gives a variable its value")
        }
        Step::Cover(variable, _) => draw_split(page, &at.naming(), *variable),
        Step::Generalize(term) => draw_generalize(page, &at.naming(), term),
        Step::Context(_, number, left) => {
            draw_said(page, b"by premise ", *number, direction(*left))
        }
        Step::Hyp(node, terms, _, left) => draw_hyp(page, at, *node, *left, terms.as_slice()),
        Step::Lemma(name, terms, _, left) => {
            draw_lemma_step(page, at, name.as_bytes(), *left, terms.as_slice())
        }
    }
}

/// The place that the step rewrites.
pub fn marked_place(step: &Step) -> Option<&Place>
    ensures { option_copied result ≡ place_marked_by step.now }
{
    match step {
        Step::Rule(place, _)
        | Step::Case(place, _)
        | Step::Context(place, _, _)
        | Step::Hyp(_, _, place, _)
        | Step::Lemma(_, _, place, _) => Some(place),
        _ => None,
    }
}

/// Draws words, a number, and further words.
fn draw_said(page: &mut Page, words: &[u8], number: u16, more: &[u8]) -> Result<(), OutOfMemory>
    ensures { OnOk result (page.new ≡ after page.old (said words.now number more.now)) }
{
    page.text(Style::Plain, words)?;
    page.number(usize::from(number))?;
    page.text(Style::Plain, more)
}

fn draw_trivial(page: &mut Page, number: u16) -> Result<(), OutOfMemory>
    ensures { OnOk result (page.new ≡ after page.old (trivial_events number)) }
{
    draw_said(page, b"both sides of conclusion ", number, b" are the same")
}

fn draw_match(page: &mut Page, conclusion: u16, premise: u16) -> Result<(), OutOfMemory>
    ensures { OnOk result (page.new ≡ after page.old (match_events conclusion premise)) }
{
    draw_said(page, b"conclusion ", conclusion, b" is premise ")?;
    page.number(usize::from(premise))
}

fn draw_decompose(page: &mut Page, conclusion: bool, number: u16) -> Result<(), OutOfMemory>
    ensures { OnOk result (page.new ≡ after page.old (decompose_events conclusion number)) }
{
    page.text(Style::Plain, b"strip the constructor of ")?;
    page.text(Style::Plain, equation_name(conclusion))?;
    page.number(usize::from(number))
}

fn draw_split(page: &mut Page, naming: &Naming<'_>, variable: VarId) -> Result<(), OutOfMemory>
    ensures { OnOk result (page.new ≡ after page.old
        (split_events naming.now.names.now variable.0)) }
{
    page.text(Style::Plain, b"split on ")?;
    draw_variable(page, naming, Style::Plain, variable.0 as usize)
}

fn draw_generalize(page: &mut Page, naming: &Naming<'_>, term: &Term) -> Result<(), OutOfMemory>
    ensures { OnOk result (page.new ≡ after page.old
        (generalize_events naming.now.sig.now naming.now.names.now term.now)) }
{
    page.text(Style::Plain, b"a new variable for ")?;
    draw_side(page, naming, None, term)
}

/// Draws words, the number of a rule, and the rule.
fn draw_rule_step(
    page: &mut Page,
    at: &StepAt<'_>,
    words: &[u8],
    number: u32,
) -> Result<(), OutOfMemory>
    ensures { OnOk result (page.new ≡ after page.old
        (rule_step_events at.now.spec.now words.now number)) }
{
    page.text(Style::Plain, words)?;
    page.number(number as usize)?;
    let Some(rule) = rule_numbered(at.spec, number) else {
        return Ok(());
    };
    page.text(Style::Plain, b": ")?;
    draw_rule(page, at.alloc, &at.spec.sig, rule)
}

/// The rule of this number, which counts from 1.
fn rule_numbered(spec: &Spec, number: u32) -> Option<&Rule>
    ensures { option_copied result ≡ numbered_rule spec.now.rules number }
{
    let place = number.checked_sub(1)?;
    spec.rules.as_slice().get(place as usize)
}

/// `conclusion ` or `premise `, before its number.
pub fn equation_name(conclusion: bool) -> &'static [u8]
    ensures { result.now ≡ name_of_equation conclusion }
{
    if conclusion {
        b"conclusion "
    } else {
        b"premise "
    }
}
