//! What is shown of a goal that is proved, refuted or left open: where the search for a routine
//! proof of an open goal stops, and what is near there.
//!
//! Uses proof_search, which answers the nodes at which the search stops, and proof_words, by which
//! they are drawn on a page of page_core. Of each start of the goal the smallest of its nodes are
//! shown, with names of node_names for their variables.
//!
//! Proved: `draw_section`: the line of a goal that is proved or refuted; or of one that is left
//! open its clause, how far it was tried, and the starts of its proof. Each clause that is shown
//! is that of a node other than the goal's, which chosen moves reach from the start while other
//! nodes are passed over. At this node no entry of the list gives a step, or the first one that
//! does is a cover, as the page says, and the variable that is named there is the one that the
//! clause asks for. The names of a clause's variables are all different, and no symbol has one of
//! them. A lemma that is near is a lemma of the goal.
//!
//! Neither: Which nodes are shown, and how many are counted. That a lemma or a hypothesis that is
//! near lacks nothing else.
#![tactic(auto, using(page_core::proofs::Pages::drawing))]

mod choosing;
mod drawing;
mod fitting;
mod gaps;
mod near;
mod sections;
mod stops;
mod taking;
mod words;

pub use gaps::Gap;
pub use near::{Near, Source};
pub use sections::draw_section;
pub use stops::{OpenStart, Stop};
