// Call 5: loading a table. The table in use was the built-in one.
use crate::call_files::read_head;
use crate::report;
use sort_table::loading;
use sort_table::table::built_in;
use std::io;
use std::io::Write;

// It has no pool: T, V and N are 0, and nothing follows the head.
fn has_no_pool(bytes: &[u8]) -> bool {
    let head = read_head(bytes);
    bytes.len() == 32 && head.tags == 0 && head.values == 0 && head.n == 0
}

pub fn load<W: Write>(bytes: &[u8], entries: &[u32], out: &mut W) -> io::Result<()> {
    if !has_no_pool(bytes) {
        return report::bad_file(out);
    }
    let mut table = built_in();
    let answer = loading::load(entries, &mut table);
    report::answer_line(answer, 0, out)?;
    report::line(b"table", &table, out)
}
