//! `draw_rule`: a rule with its guards.

ghost use Rattle.std.specs.Prelude.{◌≡◌, OnOk, flat_map};
ghost use Rattle.page_core.specs.Pages.{after};
ghost use Rattle.proof_words.specs.RuleEvents.{condition as condition_of, guard_events};
ghost use Rattle.proof_words.specs.RuleEvents.{named_rule_events};
ghost use Rattle.proof_words.specs.RuleEvents.{rule_events};

use crate::naming::{Naming, own_names};
use crate::terms::draw_side;
use page_core::{Page, Style};
use spec_core::{Guard, Rule, Signature};
use std::alloc::Global;
use term_core::OutOfMemory;

/// Draws the rule with its own names.
pub fn draw_rule(
    page: &mut Page,
    alloc: Global,
    sig: &Signature,
    rule: &Rule,
) -> Result<(), OutOfMemory>
    ensures { OnOk result (page.new ≡ after page.old (rule_events sig.now rule.now)) }
{
    let names = own_names(alloc, rule.vars.as_slice())?;
    let naming = Naming {
        alloc,
        sig,
        names: &names,
    };
    draw_named_rule(page, &naming, rule)
}

/// Draws the rule with these names.
fn draw_named_rule(page: &mut Page, naming: &Naming<'_>, rule: &Rule) -> Result<(), OutOfMemory>
    ensures { OnOk result (page.new ≡ after page.old
        (named_rule_events naming.now.sig.now naming.now.names.now rule.now)) }
{
    draw_side(page, naming, None, &rule.left)?;
    page.text(Style::Plain, b" = ")?;
    draw_side(page, naming, None, &rule.right)?;
    draw_guards(page, naming, rule.guards.as_slice())
}

fn draw_guards(page: &mut Page, naming: &Naming<'_>, guards: &[Guard]) -> Result<(), OutOfMemory>
    ensures { OnOk result (page.new ≡ after page.old
        (flat_map (guard_events naming.now.sig.now naming.now.names.now) guards.now)) }
{
    for guard in guards {
        page.text(Style::Plain, condition(guard.wanted))?;
        draw_side(page, naming, None, &guard.test)?;
    }
    Ok(())
}

/// What comes before a test that is wanted true, and one that is wanted false.
fn condition(wanted: bool) -> &'static [u8]
    ensures { result.now ≡ condition_of wanted }
{
    if wanted { b" if " } else { b" unless " }
}
