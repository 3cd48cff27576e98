//! The lines and margins of plain text.

ghost use Rattle.std.specs.Prelude.{◌≡◌, ◌++◌, OnOk};
ghost use Rattle.page_core.specs.PlainText as text;
ghost use Rattle.page_core.specs.PlainText.{line_begin, line_end, margin_after, margin_within};

use crate::parts::Part;
use term_core::OutOfMemory;

/// Appends what is written where a part begins.
pub(crate) fn append_line_begin(
    part: Part,
    margin: &[u8],
    out: &mut Vec<u8>,
) -> Result<(), OutOfMemory>
    ensures { OnOk result (out.new.items ≡ out.old.items ++ line_begin part margin.now) }
{
    match part {
        Part::Document | Part::Goals | Part::Goal(_) | Part::Case => {}
        Part::GoalHeading => {
            out.push(b'\n')?;
            out.extend_from_slice(margin)?;
        }
        Part::Step => {
            out.extend_from_slice(margin)?;
            out.extend_from_slice(b"    ")?;
        }
        Part::CaseHeading => out.extend_from_slice(outer_margin(margin))?,
        _ => out.extend_from_slice(margin)?,
    }
    Ok(())
}

/// What is written where a part ends.
pub(crate) fn line_end_of(part: Part) -> &'static [u8]
    ensures { result.now ≡ line_end part }
{
    match part {
        Part::Document | Part::Goals | Part::Goal(_) | Part::Case => b"",
        _ => b"\n",
    }
}

/// Makes the margin that of what is in a part.
pub(crate) fn enter(part: Part, margin: &mut Vec<u8>) -> Result<(), OutOfMemory>
    ensures { OnOk result (margin.new.items ≡ margin_within part margin.old.items) }
{
    if part == Part::Case {
        margin.extend_from_slice(b"  ")?;
    }
    Ok(())
}

/// Makes the margin that of what follows a part.
pub(crate) fn leave(part: Part, margin: &mut Vec<u8>)
    ensures { margin.new.items ≡ margin_after part margin.old.items }
{
    if part == Part::Case {
        margin.truncate(margin.len().saturating_sub(2));
    }
}

/// The margin of what is around a case.
fn outer_margin(margin: &[u8]) -> &[u8]
    ensures { result.now ≡ text.outer_margin margin.now }
{
    &margin[..margin.len().saturating_sub(2)]
}
