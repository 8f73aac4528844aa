// The calls on a pool whose tags are bytes. Each is lent the table of sort rules in use.
// Kept: C calls each of the two by its own name.
ghost use Rattle.pool.specs.Check.{check_pool};
ghost use Rattle.pool.specs.Calls.{sort_answer, FreeVars};
ghost use Rattle.normal_form.specs.Promise.{NormalFormPromise, ClauseListPromise};
ghost use Rattle.rules.specs.Step.{Step};
ghost use Rattle.weldrika.specs.AnswerArray.{answer_in};
ghost use Rattle.std.specs.Prelude.{◌≡◌};

use crate::answer_array::put_answer;
use pool::TermPlace;

// The pool check: 30, 40, 41, 14, 15, 16.
#[unsafe(no_mangle)]
pub extern "C" fn weldrika_check_pool_u8(
    tags: &[u8],
    values: &[u32],
    table: &[u32],
    n: usize,
    answer: &mut [u32; 3],
)
    ensures { answer_in answer.new ≡ check_pool tags.now values.now table.now n }
{
    put_answer(answer, byte_tags::check_pool(tags, values, table, n));
}

// The sort of the term at t: accepted, the sort's place.
#[unsafe(no_mangle)]
pub extern "C" fn weldrika_sort_of_term_u8(
    tags: &[u8],
    values: &[u32],
    table: &[u32],
    n: usize,
    t: u32,
    answer: &mut [u32; 3],
)
    ensures { answer_in answer.new ≡ sort_answer tags.now values.now table.now n t }
{
    put_answer(
        answer,
        byte_tags::sort_of_term(tags, values, table, n, TermPlace(t)),
    );
}

// The free variables of the term at t: 1 at their places in the lent marks, and 0 elsewhere.
#[unsafe(no_mangle)]
pub extern "C" fn weldrika_free_vars_u8(
    tags: &[u8],
    values: &[u32],
    table: &[u32],
    n: usize,
    t: u32,
    marks: &mut [u8],
    answer: &mut [u32; 3],
)
    ensures { FreeVars tags.now values.now table.now n t marks.old (answer_in answer.new) marks.new }
{
    let a = byte_tags::free_vars(tags, values, table, n, TermPlace(t), marks);
    put_answer(answer, a);
}

// The normal form of the term at t at a polarity: accepted, its place and the new count.
#[unsafe(no_mangle)]
pub extern "C" fn weldrika_normal_form_u8(
    tags: &mut [u8],
    values: &mut [u32],
    table: &[u32],
    n: usize,
    t: u32,
    polarity: bool,
    answer: &mut [u32; 3],
)
    ensures { NormalFormPromise tags.old values.old table.now n t polarity (answer_in answer.new) tags.new values.new }
{
    let a = byte_tags::normal_form(tags, values, table, n, TermPlace(t), polarity);
    put_answer(answer, a);
}

// The clause list of the term at t, in the lent arrays: accepted, its two totals; the new count is given back, and 0 if it is refused.
#[unsafe(no_mangle)]
pub extern "C" fn weldrika_clause_list_u8(
    tags: &mut [u8],
    values: &mut [u32],
    table: &[u32],
    n: usize,
    t: u32,
    literals: &mut [u32],
    ends: &mut [u32],
    answer: &mut [u32; 3],
) -> u32
    ensures { ClauseListPromise tags.old values.old table.now n t literals.old ends.old (answer_in answer.new) result tags.new values.new literals.new ends.new }
{
    let listed = byte_tags::clause_list(tags, values, table, n, TermPlace(t), literals, ends);
    put_answer(answer, listed.answer);
    listed.count
}

// The check of a step whose conclusion is given by its places.
#[unsafe(no_mangle)]
pub extern "C" fn weldrika_check_u8(
    tags: &mut [u8],
    values: &mut [u32],
    table: &[u32],
    n: usize,
    rule: u32,
    conclusion: &[u32],
    answer: &mut [u32; 3],
)
    ensures { Step tags.old values.old table.now n rule conclusion.now (answer_in answer.new) tags.new values.new }
{
    let a = byte_tags::check(tags, values, table, n, rule, conclusion);
    put_answer(answer, a);
}
