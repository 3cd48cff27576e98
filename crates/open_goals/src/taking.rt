//! Items that are taken out of a list.

ghost use Rattle.std.specs.Option.{IfSome};
ghost use Rattle.open_goals.specs.Taking.{IsTaken};

use crate::choosing::smallest;
use proof_search::{Stuck, StuckStart};

/// The first of the starts, if there is one.
pub(crate) fn take_first(starts: &mut Vec<StuckStart>) -> Option<StuckStart>
    ensures { IfSome result (IsTaken starts.old.items starts.new.items) }
{
    if starts.is_empty() {
        return None;
    }
    Some(starts.remove(0))
}

/// One of the smallest of the nodes, if there is one.
pub(crate) fn take_smallest(stuck: &mut Vec<Stuck>) -> Option<Stuck>
    ensures { IfSome result (IsTaken stuck.old.items stuck.new.items) }
{
    let place = smallest(stuck);
    if place >= stuck.len() {
        return None;
    }
    Some(stuck.remove(place))
}
