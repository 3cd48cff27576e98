ghost use Rattle.cond_rewrite.specs.Laws.{OneRowAnswer, RowsInBlocks};

use term_order::TermOrder;

/// The rows of `rule` and `case` say of a clause over any nodes and by any order what they answer
/// by themselves.
pub fn rows_in_blocks<O: TermOrder>(_order: &O)
    ensures { RowsInBlocks (O.above _order.now) }
{}

/// The rows of `rule` and `case` have one answer: a step isn't both refused and made, and is
/// refused for one reason.
pub fn one_row_answer()
    ensures { OneRowAnswer }
{}
