//! A page that is written: HTML that a browser shows, or plain text.
//!
//! Uses term_core, and spec_core for the digits of a number. A [`Page`] is what its events
//! (`specs/Events.antt`) make of it, one after the other (`specs/Pages.antt`): a part begins or
//! ends, a text, a link. `specs/Html.antt` and `specs/PlainText.antt` say what each writes. The
//! crates above describe what they draw by a list of events.
//!
//! Proved: A page is what its events make of it: `Page::new`, `begin`, `end`, `text`, `number`,
//! `link`, `into_bytes`. Lists of events compose (`one_by_one`). The HTML of balanced events is
//! well formed: between the fixed head and the fixed end each tag that opens is closed by its own,
//! and no text has a character that HTML reads (`well_formed`). `worked_examples`.
#![tactic(auto)]

mod escaping;
mod head;
mod html;
mod laws;
mod page;
mod parts;
mod plain_text;

pub use laws::{one_by_one, well_formed, worked_examples};
pub use page::Page;
pub use parts::{Anchor, Format, Part, Style};
