ghost use Rattle.show_words.specs.Laws.{OneRequest};

/// Words ask for one thing to be shown at most, and those that do ask for nothing else.
pub fn one_request()
    ensures { OneRequest }
{}
