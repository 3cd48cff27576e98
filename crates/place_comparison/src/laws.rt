ghost use Rattle.place_comparison.specs.AtPlaces.{PlaceDecides};

use term_order::TermOrder;

/// A clause compares with the one whose place holds another term as the two terms there do.
pub fn place_decides<O: TermOrder>(order: &O)
    ensures { PlaceDecides (O.above order.now) }
{}
