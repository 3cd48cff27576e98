ghost use Rattle.explore_words.specs.Laws.{OneRequest};

/// Words ask for one exploration at most, and those that do ask for nothing else.
pub fn one_request()
    ensures { OneRequest }
{}
