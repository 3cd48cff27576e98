ghost use Rattle.spec_admit.specs.Examples.{WorkedExamples};
ghost use Rattle.spec_admit.specs.Laws.{FirstOfItsGroup, NoFaultWhereAdmitted, OneFault};
ghost use Rattle.spec_admit.specs.Laws.{OneLeftSide, OneValueWhereAdmitted};

use term_order::TermOrder;

/// By each order, an admitted specification has no fault.
pub fn no_fault_where_admitted<O: TermOrder>()
    ensures { (o : O) → NoFaultWhereAdmitted (O.above o) }
{
    overlap_check::one_answer();
    overlap_check::both_overlap();
}

/// By each order, a specification has at most one first fault.
pub fn one_fault<O: TermOrder>()
    ensures { (o : O) → OneFault (O.above o) }
{
    overlap_check::one_answer();
    overlap_check::both_overlap();
    coverage_check::one_named();
}

/// A fault of guards names the first rule of its group.
pub fn guards_name_the_first_of_a_group<O: TermOrder>(order: &O)
    ensures { FirstOfItsGroup (O.above order.now) }
{}

/// In an admitted specification each call of a function with values has exactly one left side that
/// matches, and each term at most one value and one cost.
pub fn each_call_has_one_left_side<O: TermOrder>(order: &O)
    ensures left_side { OneLeftSide (O.above order.now) }
    ensures value { OneValueWhereAdmitted (O.above order.now) }
{
    spec_core::one_value();
}

/// The definitions say of rules for addition what one works out by hand.
pub fn worked_examples()
    ensures { WorkedExamples }
{
    spec_core::worked_examples();
    overlap_check::worked_examples();
    coverage_check::worked_examples();
}
