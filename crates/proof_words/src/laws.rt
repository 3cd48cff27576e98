ghost use Rattle.proof_words.specs.Examples.{WorkedExamples};

/// The definitions say of clauses, rules, steps and cases what one writes by hand.
pub fn worked_examples()
    ensures { WorkedExamples }
{}
