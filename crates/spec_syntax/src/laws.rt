ghost use Rattle.spec_syntax.specs.Laws.{OneFault};

/// A text that derives a raw specification has no fault, and any text has one fault at most.
pub fn one_fault()
    ensures { OneFault }
{}
