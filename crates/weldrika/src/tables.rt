// The table of sort rules in use: the built-in one, and the call that replaces one.
ghost use Rattle.std.specs.Prelude.{◌≡◌};
ghost use Rattle.sort_table.specs.Table.{built_in};
ghost use Rattle.sort_table.specs.TableAnswer.{Loaded};
ghost use Rattle.weldrika.specs.AnswerArray.{answer_in};

use crate::answer_array::put_answer;
use sort_table::loading::{ENTRIES, load};
use sort_table::table::built_in;

// Writes the built-in table to the lent array.
#[unsafe(no_mangle)]
pub extern "C" fn weldrika_built_in_table(table: &mut [u32; ENTRIES])
    ensures { table.new ≡ built_in }
{
    *table = built_in();
}

// Replaces the table in use by these entries if they load.
#[unsafe(no_mangle)]
pub extern "C" fn weldrika_load_table(
    entries: &[u32],
    table: &mut [u32; ENTRIES],
    answer: &mut [u32; 3],
)
    ensures { Loaded entries.now table.old (answer_in answer.new) table.new }
{
    let a = load(entries, table);
    put_answer(answer, a);
}
