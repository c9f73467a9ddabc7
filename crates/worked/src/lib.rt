// The worked examples: lines given to a memory of four blocks, and the replies that the definitions give them.
#![tactic(auto)]

ghost use Rattle.worked.specs.Rows.{RowsStand};

// Eight rows of lines on four blocks of the BCD996T get these replies, in this order.
pub fn rows_stand()
    ensures { RowsStand }
{}
