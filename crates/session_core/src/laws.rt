ghost use Rattle.session_core.specs.Examples.{WorkedExamples};
ghost use Rattle.session_core.specs.Laws.{KeepsBothWays, LastTest, OneAnswer, OneReading, OneState};
ghost use Rattle.session_core.specs.Laws.{OneText, ReportsStand, StatesAreSound};

use term_order::TermOrder;

/// A list of accepted commands has one state.
pub fn one_state<O: TermOrder>(order: &O)
    ensures { OneState (O.above order.now) }
{
    clause_core::one_relation(order);
}

/// A command is accepted or refused, never both, and refused for one first reason.
pub fn one_answer<O: TermOrder>(order: &O)
    ensures { OneAnswer (O.above order.now) }
{
    clause_core::one_relation(order);
}

/// The claims of each state make an accepted report, and a step that leaves nothing pending makes
/// its goal the last of them.
pub fn states_are_sound<O: TermOrder>(order: &O)
    ensures { StatesAreSound (O.above order.now) }
{}

/// The definitions say of two sessions on naturals what one works out by hand.
pub fn worked_examples()
    ensures { WorkedExamples }
{
    spec_core::worked_examples();
}

/// At a step that leaves nothing pending, the test of what isn't smaller is that of the whole
/// block.
pub fn last_test<O: TermOrder>(order: &O)
    ensures { LastTest (O.above order.now) }
{}

/// What a session keeps changes at its end alone, both ways.
pub fn keeps_both_ways<O: TermOrder>(order: &O)
    ensures { KeepsBothWays (O.above order.now) }
{
    clause_core::one_relation(order);
}

/// The report of a state has a text, if its commands may appear in one.
pub fn reports_stand<O: TermOrder>(order: &O)
    ensures { ReportsStand (O.above order.now) }
{}

/// What a session writes is one text.
pub fn one_text<O: TermOrder>(order: &O)
    ensures { OneText (O.above order.now) }
{
    clause_core::one_relation(order);
}

/// A text of commands has one list of commands or one faulty line, and never both.
pub fn one_reading()
    ensures { OneReading }
{}
