// The calls that users make on a pool whose tags are u32 (document 01's pool). Each has the call on bytes work on the tags that it can look at,
// narrowed into a local array, and what that changed is written back (`on_bytes`). Numbers that are no tags stay where nothing may change.
// Each is lent the table of sort rules in use: `built_in` hands out the built-in one, and `load` replaces one.
// Kept: the two arrays of a pool come one by one in a call that users make, as document 01 lends them.
#![tactic(auto)]

mod on_bytes;

ghost use Rattle.std.specs.Prelude.{◌≡◌};
ghost use Rattle.pool.specs.Check.{check_pool};
ghost use Rattle.pool.specs.Calls.{sort_answer, FreeVars};
ghost use Rattle.normal_form.specs.Promise.{NormalFormPromise, ClauseListPromise};
ghost use Rattle.rules.specs.Step.{Step};

pub use normal_form::call::Listed;
use pool::Pool;
pub use pool::{Answer, TermPlace};
use rules::rule::CNF;
pub use sort_table::loading::load;
pub use sort_table::table::built_in;
use tag_layouts::narrowing::cut_back;

// The pool check: 30, 40, 41, 14, 15, 16.
pub fn check_pool(tags: &[u32], values: &[u32], table: &[u32], n: usize) -> Answer
    ensures { result ≡ check_pool tags.now values.now table.now n }
{
    on_bytes::read(
        tags,
        values,
        &mut |bytes, values| {
            pool::call::check_pool(
                &Pool {
                    tags: bytes,
                    values,
                },
                table,
                n,
            )
        },
    )
}

// The sort of the term at t: accepted, the sort's place.
pub fn sort_of_term(tags: &[u32], values: &[u32], table: &[u32], n: usize, t: TermPlace) -> Answer
    ensures { result ≡ sort_answer tags.now values.now table.now n t.0 }
{
    on_bytes::read(
        tags,
        values,
        &mut |bytes, values| {
            pool::call::sort_of_term(
                &Pool {
                    tags: bytes,
                    values,
                },
                table,
                n,
                t,
            )
        },
    )
}

// The free variables of the term at t: 1 at their places in the lent marks, and 0 elsewhere.
pub fn free_vars(
    tags: &[u32],
    values: &[u32],
    table: &[u32],
    n: usize,
    t: TermPlace,
    marks: &mut [u8],
) -> Answer
    ensures { FreeVars tags.now values.now table.now n t.0 marks.old result marks.new }
{
    on_bytes::read(
        tags,
        values,
        &mut |bytes, values| {
            pool::call::free_vars(
                &Pool {
                    tags: bytes,
                    values,
                },
                table,
                n,
                t,
                marks,
            )
        },
    )
}

// The normal form of the term at t at a polarity: accepted, its place and the new count.
pub fn normal_form(
    tags: &mut [u32],
    values: &mut [u32],
    table: &[u32],
    n: usize,
    t: TermPlace,
    polarity: bool,
) -> Answer
    ensures { NormalFormPromise tags.old values.old table.now n t.0 polarity result tags.new values.new }
{
    on_bytes::write(
        tags,
        values,
        Some(n),
        &mut |bytes, values| Listed {
            answer: normal_form::call::normal_form(bytes, values, table, n, t, polarity),
            count: 0,
        },
    )
    .answer
}

// The clause list of the term at t: accepted, its two totals and the new count, with the list in the lent arrays.
pub fn clause_list(
    tags: &mut [u32],
    values: &mut [u32],
    table: &[u32],
    n: usize,
    t: TermPlace,
    literals: &mut [u32],
    ends: &mut [u32],
) -> Listed
    ensures { ClauseListPromise tags.old values.old table.now n t.0 literals.old ends.old result.answer result.count tags.new values.new literals.new ends.new }
{
    on_bytes::write(
        tags,
        values,
        Some(n),
        &mut |bytes, values| {
            normal_form::call::clause_list(bytes, values, table, n, t, literals, ends)
        },
    )
}

// The check of a step whose conclusion is given by its places. No byte is written back: rule 3 alone writes, and it leaves zeroes past the
// count.
pub fn check(
    tags: &mut [u32],
    values: &mut [u32],
    table: &[u32],
    n: usize,
    rule: u32,
    conclusion: &[u32],
) -> Answer
    ensures { Step tags.old values.old table.now n rule conclusion.now result tags.new values.new }
{
    let answer = on_bytes::write(
        tags,
        values,
        None,
        &mut |bytes, values| Listed {
            answer: rules::check::check(bytes, values, table, n, rule, conclusion),
            count: 0,
        },
    )
    .answer;
    if rule != CNF {
        return answer;
    }
    if answer.code == 30 {
        return answer;
    }
    cut_back(tags, values, n);
    answer
}
