ghost use Rattle.search_claims.specs.Laws.{SearchReportsAreAccepted, SearchReportsStand};

use term_order::TermOrder;

/// The claims of searches for all goals of a well sorted specification make a report that has a
/// text, if the specification's names may appear in one.
pub fn search_reports_stand()
    ensures { SearchReportsStand }
{}

/// These claims make a report that is accepted, whatever the order.
pub fn search_reports_are_accepted<O: TermOrder>(order: &O)
    ensures { SearchReportsAreAccepted (O.above order.now) }
{}
