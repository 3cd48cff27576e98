ghost use Rattle.proof_search.specs.Falling.{NeverRises};

use term_order::TermOrder;

/// If a term is above another one, no sorted instance of the other one is above that of the
/// term: their ground instances would rank both higher and lower.
pub(crate) fn never_rises<O: TermOrder>(order: &O)
    ensures { NeverRises (O.above order.now) }
{}
