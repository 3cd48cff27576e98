ghost use Rattle.spec_order.specs.Examples.{WorkedExamples};

/// Either order says of the rules of small specifications what one works out by hand.
pub fn worked_examples()
    ensures { WorkedExamples }
{
    path_order::worked_examples();
}
