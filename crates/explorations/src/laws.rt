ghost use Rattle.explorations.specs.Examples.{WorkedExamples};
ghost use Rattle.explorations.specs.Laws.{ExplorationsAreTrue, NothingAdded, OneExploration};

use added_goals::adding_keeps_meaning;
use proof_script::one_report;
use sort_check::one_specification;
use spec_grammar::one_reading;

/// Each goal that an exploration proves is true of the specification without further goals, and
/// each one that it refutes fails there.
pub fn explorations_are_true()
    ensures { ExplorationsAreTrue }
{
    adding_keeps_meaning();
}

/// The text of a specification and an accepted report on it are an exploration, which adds nothing.
pub fn nothing_added()
    ensures { NothingAdded }
{}

/// Two texts are an exploration in one way at most.
pub fn one_exploration()
    ensures { OneExploration }
{
    one_reading();
    one_specification();
    one_report();
}

/// The definitions say of claims on naturals with addition what one works out by hand.
pub fn worked_examples()
    ensures { WorkedExamples }
{}
