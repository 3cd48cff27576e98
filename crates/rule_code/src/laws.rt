ghost use Rattle.rule_code.specs.Laws.{CodeIsRight, CodeIsWhole, TestsMatch, TestsDecide};
ghost use Rattle.rule_code.specs.Laws.{RepeatsDecide};

/// What the code of a term gives, the term gives.
pub fn code_is_right()
    ensures { CodeIsRight }
{}

/// What a term gives, its code gives.
pub fn code_is_whole()
    ensures { CodeIsWhole }
{}

/// If the tests of a left side pass and the slots of each variable have one value, it is the call
/// with the values.
pub fn tests_match()
    ensures { TestsMatch }
{}

/// If one of them fails, it is so under no entries.
pub fn tests_decide()
    ensures { TestsDecide }
{}

/// If two slots of one variable differ, it is so under no entries.
pub fn repeats_decide()
    ensures { RepeatsDecide }
{}
