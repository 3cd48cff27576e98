//! The terms for the variables of a clause that a step refers to.

ghost use Rattle.std.specs.Prelude.{◌≡◌, OnOk, codes};
ghost use Rattle.page_core.specs.Pages.{after};
ghost use Rattle.proof_words.specs.InstanceEvents.{assignment_events, instance_events};
ghost use Rattle.proof_words.specs.ListEvents.{separated};

use crate::lists::draw_separation;
use crate::naming::{Naming, draw_variable};
use crate::terms::draw_side;
use page_core::{Page, Style};
use term_core::{Name, OutOfMemory, Term};

/// Draws these words and the term for each variable of the clause that is referred to. Nothing is
/// drawn if it has no variables.
pub(crate) fn draw_instance(
    page: &mut Page,
    naming: &Naming<'_>,
    referred: &[Name],
    words: &[u8],
    terms: &[Term],
) -> Result<(), OutOfMemory>
    ensures { OnOk result (page.new ≡ after page.old
        (instance_events naming.now.sig.now naming.now.names.now referred.now words.now
        terms.now)) }
{
    if let [] = terms {
        return Ok(());
    }
    page.text(Style::Plain, words)?;
    draw_assignments(page, naming, referred, terms)
}

fn draw_assignments(
    page: &mut Page,
    naming: &Naming<'_>,
    referred: &[Name],
    terms: &[Term],
) -> Result<(), OutOfMemory>
    ensures { OnOk result (page.new ≡ after page.old
        (separated (codes ", ")
        (assignment_events naming.now.sig.now naming.now.names.now referred.now) terms.now)) }
{
    for (number, term) in terms.iter().enumerate() {
        draw_separation(page, b", ", number)?;
        draw_assignment(page, naming, referred, number, term)?;
    }
    Ok(())
}

/// Draws the term for the variable of this number.
fn draw_assignment(
    page: &mut Page,
    naming: &Naming<'_>,
    referred: &[Name],
    number: usize,
    term: &Term,
) -> Result<(), OutOfMemory>
    ensures { OnOk result (page.new ≡ after page.old
        (assignment_events naming.now.sig.now naming.now.names.now referred.now number
        term.now)) }
{
    let referring = Naming {
        alloc: naming.alloc,
        sig: naming.sig,
        names: referred,
    };
    draw_variable(page, &referring, Style::Plain, number)?;
    page.text(Style::Plain, b" := ")?;
    draw_side(page, naming, None, term)
}
