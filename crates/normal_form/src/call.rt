// The public calls, under the table of sort rules in use: the normal form of a term, and the clause list of a term.
// Kept: the two arrays of a pool come one by one in a call that users make, as document 01 lends them.
ghost use Rattle.cells.specs.Limits.{cell_limit};
ghost use Rattle.std.specs.Prelude.{◌≤◌, ◌≡◌};
ghost use Rattle.answers.specs.Refusal.{answer_to};
ghost use Rattle.clauses.specs.ClauseList.{counted};
ghost use Rattle.normal_form.specs.Promise.{NormalFormPromise, ClauseListPromise};
ghost use Rattle.normal_form.specs.ClauseCall.{ClausalBuilt, unlisted, ListKept};

use crate::clausal_forms::build_forms;
use building::negation_normal_form::build_normal_form;
use building::terms::WORK;
use clauses::clause_list::{clear_list, list_clauses};
use clauses::totals::Totals;
use pool::checks::index_term;
use pool::description::cut_back;
use pool::index::{INDEX, IndexedPool};
use pool::limits::{CLAUSE_ENDS, LITERALS};
use pool::{Answer, Pool, Refusal, TermPlace};

// The normal form of the term at t at a polarity: accepted, its place and the new count. What stands there has the term's value at true
// polarity, and the negated value at false.
pub fn normal_form(
    tags: &mut [u8],
    values: &mut [u32],
    table: &[u32],
    n: usize,
    t: TermPlace,
    polarity: bool,
) -> Answer
    ensures { NormalFormPromise tags.old values.old table.now n t.0 polarity result tags.new values.new }
{
    let mut index = [0u32; INDEX];
    if let Err(refusal) = index_term(&Pool { tags, values }, table, n, t, &mut index) {
        if refusal.is_bad_arrays() {
            return Answer::from(refusal);
        }
        cut_back(tags, values, n);
        return Answer::from(refusal);
    }
    let mut work = [0u32; WORK];
    let mut pool = IndexedPool {
        tags,
        values,
        index: &mut index,
        count: n,
    };
    let built = build_normal_form(&mut pool, &mut work, t, polarity);
    let m = pool.count;
    let Some(p) = built else {
        cut_back(tags, values, n);
        return Answer::from(Refusal::NoRoom);
    };
    cut_back(tags, values, m);
    Answer::accepted(p.0, m as u32)
}

// What the clause list's call gives: the answer, with the two totals if accepted, and the new count.
#[derive(Clone, Copy)]
pub struct Listed {
    pub answer: Answer,
    pub count: u32,
}

// The checks of the term at t, 30, 40, 41, 14, 15, 16 and 17, and where its taken-out normal form stands, with the new count; or 31.
fn clausal_of(
    tags: &mut [u8],
    values: &mut [u32],
    table: &[u32],
    n: usize,
    t: TermPlace,
) -> Result<(TermPlace, usize), Refusal>
    ensures { ClausalBuilt tags.old values.old table.now n t.0 result tags.new values.new }
{
    let mut index = [0u32; INDEX];
    index_term(&Pool { tags, values }, table, n, t, &mut index)?;
    let mut pool = IndexedPool {
        tags,
        values,
        index: &mut index,
        count: n,
    };
    let forms = build_forms(&mut pool, t).ok_or(Refusal::NoRoom)?;
    Ok((forms.taken_out, forms.count))
}

fn refused(refusal: Refusal) -> Listed
    ensures { result ≡ unlisted (answer_to refusal) }
{
    Listed {
        answer: Answer::from(refusal),
        count: 0,
    }
}

// The new terms are kept if the list is accepted, and cut back if not.
fn keep_listed(
    tags: &mut [u8],
    values: &mut [u32],
    n: usize,
    m: usize,
    listed: Result<Totals, Refusal>,
) -> Listed
    requires { m ≤ cell_limit }
    ensures { ListKept n m (counted listed) tags.old values.old result tags.new values.new }
{
    match listed {
        Ok(totals) => {
            cut_back(tags, values, m);
            Listed {
                answer: Answer::accepted(totals.clauses, totals.literals),
                count: m as u32,
            }
        }
        Err(refusal) => {
            cut_back(tags, values, n);
            refused(refusal)
        }
    }
}

// The clause list of the term at t: accepted, its two totals and the new count, with the list in the lent arrays. If no forall is reached,
// the conjunction of its clauses has the term's value.
pub fn clause_list(
    tags: &mut [u8],
    values: &mut [u32],
    table: &[u32],
    n: usize,
    t: TermPlace,
    literals: &mut [u32],
    ends: &mut [u32],
) -> Listed
    ensures { ClauseListPromise tags.old values.old table.now n t.0 literals.old ends.old result.answer result.count tags.new values.new literals.new ends.new }
{
    if literals.len() < LITERALS || ends.len() < CLAUSE_ENDS {
        return refused(Refusal::BadArrays);
    }
    match clausal_of(tags, values, table, n, t) {
        Err(refusal) => {
            if refusal.is_bad_arrays() {
                return refused(refusal);
            }
            cut_back(tags, values, n);
            clear_list(literals, ends);
            refused(refusal)
        }
        Ok((x, m)) => {
            let listed = list_clauses(
                &Pool {
                    tags: &tags[..m],
                    values: &values[..m],
                },
                x,
                literals,
                ends,
            );
            keep_listed(tags, values, n, m, listed)
        }
    }
}
