//! Terms, with a subterm marked, to a depth.

ghost use Rattle.std.specs.Prelude.{◌≡◌, OnOk, option_copied, suc};
ghost use Rattle.term_core.specs.Tree.{trees_of};
ghost use Rattle.page_core.specs.Pages.{after};
ghost use Rattle.proof_words.specs.TermEvents.{mark_in as mark_in_argument, others_events};
ghost use Rattle.proof_words.specs.TermEvents.{side_events};
ghost use Rattle.proof_words.specs.TermEvents.{style_of as style_with, term_events};

use crate::naming::{Naming, draw_variable, symbol_name};
use page_core::{Page, Style};
use term_core::{OutOfMemory, Term, TermNode, front};

/// What is written for a term that isn't shown: `…`.
const OMITTED: &[u8] = b"\xe2\x80\xa6";

/// A side with more symbols and variables isn't shown whole.
const MOST_WHOLE: u32 = 150;

/// How much is shown of a side that isn't shown whole.
const SHOWN_DEPTH: u32 = 6;

/// Draws a side of an equation, with the subterm at the path marked. A large side isn't drawn
/// whole.
pub fn draw_side(
    page: &mut Page,
    naming: &Naming<'_>,
    mark: Option<&[u8]>,
    side: &Term,
) -> Result<(), OutOfMemory>
    ensures { OnOk result (page.new ≡ after page.old
        (side_events naming.now.sig.now naming.now.names.now (option_copied mark.entry) side.now)) }
{
    let size = side.size(MOST_WHOLE + 1);
    let depth = if size <= MOST_WHOLE {
        size
    } else {
        SHOWN_DEPTH
    };
    draw_term(page, naming, mark, depth, side)
}

/// Draws the term to this depth, with the subterm at the path marked.
#[cycle(draw)]
pub fn draw_term(
    page: &mut Page,
    naming: &Naming<'_>,
    mark: Option<&[u8]>,
    depth: u32,
    term: &Term,
) -> Result<(), OutOfMemory>
    ensures { OnOk result (page.new ≡ after page.old
        (term_events naming.now.sig.now naming.now.names.now (option_copied mark.entry) depth
        term.now)) }
{
    if depth == 0 {
        return page.text(style_of(mark), OMITTED);
    }
    draw_shown(page, naming, mark, depth - 1, term)
}

/// Draws the term with its arguments to this depth.
#[cycle(draw)]
fn draw_shown(
    page: &mut Page,
    naming: &Naming<'_>,
    mark: Option<&[u8]>,
    depth: u32,
    term: &Term,
) -> Result<(), OutOfMemory>
    ensures { OnOk result (page.new ≡ after page.old
        (term_events naming.now.sig.now naming.now.names.now (option_copied mark.entry) (suc depth)
        term.now)) }
{
    let style = style_of(mark);
    match &term.node {
        TermNode::Var(var) => draw_variable(page, naming, style, var.0 as usize),
        TermNode::App(symbol, arguments) => {
            page.text(style, symbol_name(naming.sig, *symbol))?;
            let Some((first, others)) = front(arguments.as_slice()) else {
                return Ok(());
            };
            page.text(style, b"(")?;
            draw_term(page, naming, mark_in(1, mark), depth, first)?;
            draw_others(page, naming, mark, depth, others)?;
            page.text(style, b")")
        }
    }
}

/// Draws the arguments after the first one, each after a comma and a blank.
#[cycle(draw)]
fn draw_others(
    page: &mut Page,
    naming: &Naming<'_>,
    mark: Option<&[u8]>,
    depth: u32,
    others: &[Term],
) -> Result<(), OutOfMemory>
    ensures { OnOk result (page.new ≡ after page.old
        (others_events naming.now.sig.now naming.now.names.now (option_copied mark.entry) 2 depth
        (trees_of others.now))) }
{
    let style = style_of(mark);
    for (index, term) in others.iter().enumerate() {
        page.text(style, b", ")?;
        draw_term(page, naming, mark_in(index + 2, mark), depth, term)?;
    }
    Ok(())
}

/// The style of a term's own texts, where the subterm at this path is marked, or none is.
fn style_of(mark: Option<&[u8]>) -> Style
    ensures { result ≡ style_with (option_copied mark.entry) }
{
    match mark {
        Some([]) => Style::Marked,
        _ => Style::Plain,
    }
}

/// What is marked in the argument of this number, which counts from 1.
fn mark_in<'a>(number: usize, mark: Option<&'a [u8]>) -> Option<&'a [u8]>
    ensures { option_copied result ≡ mark_in_argument number (option_copied mark.entry) }
{
    let path = mark?;
    let Some((other, rest)) = front(path) else {
        return Some(path);
    };
    if usize::from(*other) == number {
        Some(rest)
    } else {
        None
    }
}
