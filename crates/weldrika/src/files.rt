// Step files.
ghost use Rattle.sort_table.specs.Table.{built_in};
ghost use Rattle.step_files.specs.StepFile.{Answered};

use sort_table::table::built_in;

// Writes the text that answers a step file to the front of out, and gives its length. Nothing is written where out has under 11,264 bytes.
#[unsafe(no_mangle)]
pub extern "C" fn weldrika_answer_file(input: &[u8], out: &mut [u8]) -> usize
    ensures { Answered input.now built_in out.old result out.new }
{
    let table = built_in();
    step_files::answer_file(input, &table, out)
}

// The same under the table of sort rules in use.
#[unsafe(no_mangle)]
pub extern "C" fn weldrika_answer_file_by(input: &[u8], table: &[u32], out: &mut [u8]) -> usize
    ensures { Answered input.now table.now out.old result out.new }
{
    step_files::answer_file(input, table, out)
}
