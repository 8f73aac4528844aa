// A call file from its bytes to what is printed.
ghost use Rattle.std.specs.Prelude.{◌≡◌, length};
ghost use Rattle.calls.specs.Format.{Bounded};

use crate::arrays::{MAX_ENTRIES, read_array, read_tags};
use crate::call_files::{
    Call, HEAD, Head, MOST, TABLE_HEAD, block_words, entry_count, has_table, is_whole,
    lent_in_bytes, read_head,
};
use crate::layouts::{Layout, Lent};
use crate::pool_calls;
use crate::report::bad_file;
use crate::table_call::load;
use sort_table::table::built_in;
use std::io;
use std::io::Write;
use step_files::words::word;

// The call of the head, over the file's pool, whose tags are read to this array.
fn call_on<T: Layout, W: Write>(
    tags: &mut [T],
    bytes: &[u8],
    table: &[u32],
    head: Head,
    out: &mut W,
) -> io::Result<()>
    requires bounded { Bounded head }
    requires tags_len { length tags.old ≡ head.tags }
{
    if read_tags(bytes, tags).is_none() {
        return bad_file(out);
    }
    let mut values = read_array::<MOST>(bytes, HEAD + head.tags, head.values);
    let mut pool = Lent {
        tags,
        values: &mut values[..head.values],
        table,
        n: head.n,
    };
    match Call::try_from(head.call) {
        Ok(Call::Check) => pool_calls::check(&mut pool, bytes, head, out),
        Ok(Call::Sort) => pool_calls::sort(&pool, head, out),
        Ok(Call::FreeVars) => pool_calls::free_vars(&pool, head, out),
        Ok(Call::NormalForm) => pool_calls::normal_form(&mut pool, head, out),
        Ok(Call::ClauseList) => pool_calls::clause_list(&mut pool, head, out),
        Ok(Call::Load) | Err(_) => bad_file(out),
    }
}

// The same, with an array for the tags in the layout that the file asks for.
fn call_in_layout<W: Write>(
    bytes: &[u8],
    table: &[u32],
    head: Head,
    in_bytes: bool,
    out: &mut W,
) -> io::Result<()>
    requires { Bounded head }
{
    if in_bytes {
        let mut tags = [0u8; MOST];
        return call_on(&mut tags[..head.tags], bytes, table, head, out);
    }
    let mut tags = [0u32; MOST];
    call_on(&mut tags[..head.tags], bytes, table, head, out)
}

// The bytes after the blocks, and the table in use.
#[tactic(auto, unfolding(crate::specs::Format::is_whole))]
fn run_call<W: Write>(bytes: &[u8], table: &[u32], in_bytes: bool, out: &mut W) -> io::Result<()> {
    if bytes.len() < 32 {
        return bad_file(out);
    }
    let head = read_head(bytes);
    if !is_whole(bytes, head) {
        return bad_file(out);
    }
    call_in_layout(bytes, table, head, in_bytes, out)
}

// A call under the table that the file has, or else under the built-in one.
fn run_with<W: Write>(
    bytes: &[u8],
    table: Option<&[u32]>,
    in_bytes: bool,
    out: &mut W,
) -> io::Result<()> {
    if word(bytes, 0) == Call::Load as u32 {
        return load(bytes, table.unwrap_or(&[]), out);
    }
    match table {
        Some(table) => run_call(bytes, table, in_bytes, out),
        None => run_call(bytes, &built_in(), in_bytes, out),
    }
}

pub fn run<W: Write>(bytes: &[u8], out: &mut W) -> io::Result<()> {
    let count = entry_count(bytes);
    if MAX_ENTRIES < count {
        return bad_file(out);
    }
    let words = block_words(bytes);
    if bytes.len() / 4 < words {
        return bad_file(out);
    }
    let entries = read_array::<MAX_ENTRIES>(bytes, TABLE_HEAD, count);
    let table = has_table(bytes).then_some(&entries[..count]);
    run_with(&bytes[4 * words..], table, lent_in_bytes(bytes), out)
}
