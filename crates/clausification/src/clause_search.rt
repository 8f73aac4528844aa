// Whether a term is one of the clauses that are listed in two arrays: literal places, clause after clause, and each clause's end.
ghost use Rattle.std.specs.Prelude.{◌≡◌, ◌-◌, take, drop};
ghost use Rattle.clausification.specs.QntCnf.{is_clause, any_clause};
ghost use Rattle.clausification.specs.ClauseSearch.{clauses_of};

use pool::cell_comparison::same_cells;
use pool::tags::OR;
use pool::{Pool, TermPlace};

// Whether the term at x is the clause of these literal places.
#[tactic(auto, using(crate::proofs::clause_search::Laws::one_clause))]
fn is_clause(pool: &Pool<'_>, x: TermPlace, clause: &[u32]) -> bool
    ensures { result ≡ is_clause pool.now.tags.now pool.now.values.now x.0 clause.now }
{
    if clause.len() == 1 {
        return clause[0] == x.0;
    }
    let at = x.0 as usize;
    if pool.tag_at(at) != OR {
        return false;
    }
    same_cells(pool.operands(x), clause)
}

// The cells from start on and before end, as far as there are any.
fn part(a: &[u32], start: usize, end: usize) -> &[u32]
    ensures { result.now ≡ take (end - start) (drop start a.now) }
{
    let end = end.min(a.len());
    if end <= start {
        return &a[..0];
    }
    &a[start..end]
}

// Clauses in two arrays: the literal places, and the ends, of which the first `count` are clauses'.
#[derive(Clone, Copy)]
pub struct ListedClauses<'a> {
    pub literals: &'a [u32],
    pub ends: &'a [u32],
    pub count: usize,
}

// Whether the term at x is one of the listed clauses.
pub(crate) fn any_clause(pool: &Pool<'_>, x: TermPlace, listed: &ListedClauses<'_>) -> bool
    ensures { result ≡ any_clause (is_clause pool.now.tags.now pool.now.values.now x.0) (clauses_of listed.now) }
{
    let mut start: usize = 0;
    for end in part(listed.ends, 0, listed.count) {
        let end = *end as usize;
        if is_clause(pool, x, part(listed.literals, start, end)) {
            return true;
        }
        start = end;
    }
    false
}
