// A plan's six numbers in the lent table.
#![tactic(auto)]

ghost use Rattle.std.specs.Prelude.{◌≡◌, ◌++◌, ◌≤◌, length, drop};
ghost use Rattle.stacks.specs.Stack.{row_numbers, row_told};

use tellings::Told;

// The numbers that each plan has in the table.
pub const ROW: usize = 6;

// What is told of its verdict, and its completion's bytes, at the front of a part of the table.
pub fn put_row(table: &mut [u64], t: Told, bytes: u64)
    requires { row_numbers ≤ length table.old }
    ensures { table.new ≡ row_told t bytes ++ drop row_numbers table.old }
{
    table[5] = bytes;
    table[4] = t.fourth;
    table[3] = t.third;
    table[2] = t.second;
    table[1] = t.first;
    table[0] = t.word;
}
