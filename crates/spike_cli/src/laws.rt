ghost use Rattle.spike_cli.specs.FinishedReports.{FinishedReportsAreAccepted};
ghost use Rattle.spike_cli.specs.Loads.{OneLoad};
ghost use Rattle.spike_cli.specs.OneReport.{OneRightReport};
ghost use Rattle.spike_cli.specs.Outcomes.{OneEnding, OneReplay, OneSession, OneTrim};
ghost use Rattle.spike_cli.specs.RunsTwice.{FinishedRunsAreReplayed};
ghost use Rattle.spike_cli.specs.SearchAlone.{SearchAlone};
ghost use Rattle.spike_cli.specs.UpgradedRuns.{UpgradedRunsAnswerTheSame};
ghost use Rattle.spike_cli.specs.Upgrades.{UpgradesKeepMeaning};

use acceptance::one_verdict;
use command_line::one_request;
use plain_search::one_block;
use proof_script::{one_fault as one_faulty_line, one_report};
use routine_proof::one_proof;
use session_core::one_reading;
use spec_admit::{no_fault_where_admitted, one_fault};
use spec_meaning::{places_mean_nothing, upgrades_stand_for_the_same};
use spec_order::AnyOrder;
use spec_printing::upgrade_reads_back;

/// What the text of a file leads to is one thing: an accepted specification, or a line of refusal.
pub fn one_ending()
    ensures { OneEnding }
{
    no_fault_where_admitted::<AnyOrder>();
    one_fault::<AnyOrder>();
}

/// What the bytes of a report lead to on a specification is one thing: that it is accepted, or the
/// line at which it first isn't, with the reason.
pub fn one_replay()
    ensures { OneReplay }
{
    one_report();
    one_faulty_line();
    one_verdict::<AnyOrder>();
}

/// So it is for `trim`: the report to which cuts lead is one.
pub fn one_trim()
    ensures { OneTrim }
{
    one_report();
    one_faulty_line();
    one_verdict::<AnyOrder>();
}

/// What the bytes of commands lead to on a specification is one thing: what a session writes for
/// them, or the first line that is at fault.
pub fn one_session()
    ensures { OneSession }
{
    one_reading();
}

/// A search for counterexamples alone proves nothing: its claims are those of the search, and it
/// leaves each goal open that it doesn't refute.
pub fn search_alone_proves_nothing()
    ensures { SearchAlone }
{}

/// Each report that was finished, trimmed or made by hand is accepted by `replay` on the same
/// specification.
pub fn finished_reports_are_accepted()
    ensures { FinishedReportsAreAccepted }
{
    one_replay();
}

/// What `load` writes for a number of goals is one text.
pub fn one_load()
    ensures { OneLoad }
{}

/// A report that one call of `run` finished, that of a session among them, is answered by yes in
/// another call, whatever its files and its sink are otherwise.
pub fn finished_runs_are_replayed()
    ensures { FinishedRunsAreReplayed }
{
    one_ending();
    one_request();
    finished_reports_are_accepted();
}

/// A specification has one report at most with the same bounds, and whatever part of a report a
/// call appends is a prefix of it.
pub fn one_right_report()
    ensures { OneRightReport }
{
    one_block::<AnyOrder>();
    one_proof::<AnyOrder>();
}

/// What `upgrade` writes of an accepted text is accepted as the same specification, has at most
/// three times the bytes, and is written again without a change.
pub fn upgrades_keep_meaning()
    ensures { UpgradesKeepMeaning }
{
    upgrade_reads_back();
    places_mean_nothing();
    upgrades_stand_for_the_same();
}

/// A report on a file gets the same reply on the file that `upgrade` makes of it.
pub fn upgraded_runs_answer_the_same()
    ensures { UpgradedRunsAnswerTheSame }
{
    upgrades_keep_meaning();
    one_ending();
    one_request();
    one_replay();
}
