//! `Page`: what is written so far, event by event.

#![tactic(auto, unfolding(crate::specs::Pages::after, crate::specs::Pages::drawn))]

ghost use Rattle.std.specs.Prelude.{◌≡◌, [], ◌∷◌, OnOk};
ghost use Rattle.std.specs.Fmt.{decimal};
ghost use Rattle.page_core.specs.Events.{begins, ends, link, text};
ghost use Rattle.page_core.specs.Pages.{after, blank, more, shown, with_mark, without_mark};

use crate::escaping::append_escaped;
use crate::html::{append_link, append_opening, closing_of};
use crate::parts::{Anchor, Format, Part, Style};
use crate::plain_text::{append_line_begin, enter, leave, line_end_of};
use spec_core::append_decimal;
use std::alloc::Global;
use std::marker::Model;
use term_core::OutOfMemory;

/// A page that is being written. After an error nothing is promised of what it has.
#[derive(Drop)]
pub struct Page {
    text: Vec<u8>,
    format: Format,
    marked: bool,
    margin: Vec<u8>,
}

impl Model for Page {
    ghost use Rattle.page_core.specs.Pages.{PageValue};

    ghost Value = { PageValue };

    ghost view = { λ p. record {
      text = p.text.items;
      format = p.format;
      marked = p.marked;
      margin = p.margin.items;
    } };
}

impl Page {
    /// A page without text.
    pub fn new(alloc: Global, format: Format) -> Page
        ensures { result ≡ blank format }
    {
        Page {
            text: Vec::new(alloc),
            format,
            marked: false,
            margin: Vec::new(alloc),
        }
    }

    /// Begins a part.
    pub fn begin(&mut self, part: Part) -> Result<(), OutOfMemory>
        ensures { OnOk result (self.new ≡ after self.old (begins part ∷ [])) }
    {
        self.close_mark()?;
        match self.format {
            Format::Html => append_opening(part, &mut self.text)?,
            Format::Text => append_line_begin(part, self.margin.as_slice(), &mut self.text)?,
        }
        enter(part, &mut self.margin)
    }

    /// Ends a part.
    pub fn end(&mut self, part: Part) -> Result<(), OutOfMemory>
        ensures { OnOk result (self.new ≡ after self.old (ends part ∷ [])) }
    {
        self.close_mark()?;
        let end = match self.format {
            Format::Html => closing_of(part),
            Format::Text => line_end_of(part),
        };
        self.text.extend_from_slice(end)?;
        leave(part, &mut self.margin);
        Ok(())
    }

    /// Writes a text. Marked texts, one after the other, share a mark.
    pub fn text(&mut self, style: Style, bytes: &[u8]) -> Result<(), OutOfMemory>
        ensures { OnOk result (self.new ≡ after self.old (text style bytes.now ∷ [])) }
    {
        match style {
            Style::Plain => self.close_mark()?,
            Style::Marked => self.open_mark()?,
        }
        self.append_shown(bytes)
    }

    /// Writes a number.
    pub fn number(&mut self, number: usize) -> Result<(), OutOfMemory>
        ensures { OnOk result
            (self.new ≡ after self.old (text Style.Plain (decimal number) ∷ [])) }
    {
        self.close_mark()?;
        self.append_digits(number)
    }

    /// Writes a text that leads to a goal or a node.
    pub fn link(&mut self, to: Anchor, text: &[u8]) -> Result<(), OutOfMemory>
        ensures { OnOk result (self.new ≡ after self.old (link to text.now ∷ [])) }
    {
        self.close_mark()?;
        match self.format {
            Format::Html => append_link(to, text, &mut self.text),
            Format::Text => {
                self.text.extend_from_slice(text)?;
                Ok(())
            }
        }
    }

    /// What is written.
    pub fn into_bytes(self) -> Vec<u8>
        ensures { result.items ≡ self.text }
    {
        self.text
    }

    /// Opens a mark where none is open.
    fn open_mark(&mut self) -> Result<(), OutOfMemory>
        ensures { OnOk result (self.new ≡ with_mark self.old) }
    {
        if !self.marked {
            let begin: &[u8] = match self.format {
                Format::Html => b"<mark>",
                Format::Text => b"[",
            };
            self.text.extend_from_slice(begin)?;
            self.marked = true;
        }
        Ok(())
    }

    /// Closes the mark if one is open.
    fn close_mark(&mut self) -> Result<(), OutOfMemory>
        ensures { OnOk result (self.new ≡ without_mark self.old) }
    {
        if self.marked {
            let end: &[u8] = match self.format {
                Format::Html => b"</mark>",
                Format::Text => b"]",
            };
            self.text.extend_from_slice(end)?;
            self.marked = false;
        }
        Ok(())
    }

    /// Writes a text as the format shows it.
    fn append_shown(&mut self, text: &[u8]) -> Result<(), OutOfMemory>
        ensures { OnOk result (self.new ≡ more self.old (shown self.old.format text.now)) }
    {
        match self.format {
            Format::Html => append_escaped(text, &mut self.text),
            Format::Text => {
                self.text.extend_from_slice(text)?;
                Ok(())
            }
        }
    }

    /// Writes a number's digits, which each format shows as they are.
    #[tactic(auto, using(crate::proofs::PlainTexts::shown_decimal))]
    fn append_digits(&mut self, number: usize) -> Result<(), OutOfMemory>
        ensures { OnOk result (self.new ≡ more self.old (shown self.old.format (decimal number))) }
    {
        append_decimal(number, &mut self.text)
    }
}
