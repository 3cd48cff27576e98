ghost use Rattle.spec_printing.specs.Examples.{PrintedExamples};
ghost use Rattle.spec_printing.specs.ReadsBack.{PrintedReadsBack};
ghost use Rattle.spec_printing.specs.Upgraded.{UpgradeReadsBack};

/// What is printed of a raw specification that a text derives reads back as the same one, apart
/// from places, and is printed again without a change.
pub fn printed_reads_back()
    ensures { PrintedReadsBack }
{
    spec_grammar::one_reading();
}

/// What is printed in format 2 of a raw specification that a text derives reads back as the same
/// one, apart from places and format, is printed again without a change, and has at most three
/// times the bytes of the text.
pub fn upgrade_reads_back()
    ensures { UpgradeReadsBack }
{
    spec_grammar::one_reading();
}

/// The definitions say of small raw specifications what one writes by hand.
pub fn printed_examples()
    ensures { PrintedExamples }
{}
