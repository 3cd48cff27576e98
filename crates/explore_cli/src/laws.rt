ghost use Rattle.explore_cli.specs.Laws.{ReportsGetAYes};

/// The report that is written for a file gets a yes from `replay` on the text that is written with
/// it.
pub fn reports_get_a_yes()
    ensures { ReportsGetAYes }
{}
