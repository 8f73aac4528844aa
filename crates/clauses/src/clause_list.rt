// The whole clause list of a term, as two arrays: the literal places, clause after clause, and each clause's end.
ghost use Rattle.std.specs.Prelude.{◌≡◌, length};
ghost use Rattle.formulas.specs.Built.{form_at};
ghost use Rattle.std.proofs.lemmas.List.Edits.{sets};
ghost use Rattle.formulas.specs.ClauseLists.{literal_places, clause_ends};
ghost use Rattle.descriptions.specs.Description.{Cut};
ghost use Rattle.formulas.specs.Clauses.{cnf};
ghost use Rattle.clauses.specs.ClauseList.{clause_at, list_at, joined_at, AskNext, AskList, AskJoined, Pushed, Added, SameArrays, Lent, count_answer, list_answer, counted, ListAnswered, ListReady, AskAll};

use crate::conjunctive_normal_form::CountedPool;
use crate::empty_or::empty_or;
use crate::totals::{Totals, count_at, list_totals};
use formulas::kinds::ConnectiveKind;
use formulas::view::{NormalView, normal_view};
use pool::description::zero_from;
use pool::limits::{CELLS, MAX_CLAUSES, MAX_LITERALS};
use pool::{Pool, Refusal, TermPlace};

// A clause list as it is written: the literals' places, clause after clause, and each clause's end, of which so many stand.
#[derive(Drop)]
pub struct ClauseLists<'a> {
    literals: &'a mut [u32],
    ends: &'a mut [u32],
    literal_count: usize,
    clause_count: usize,
}

impl ClauseLists<'_> {
    // Writes the clause of number k of the term at x, and its end.
    fn push(&mut self, counted: &CountedPool<'_>, x: TermPlace, k: u32)
        requires { AskNext counted.now x.0 k self.old }
        ensures next { Pushed (clause_at counted.now x.0 k) self.old self.new }
        ensures same_arrays { SameArrays self.old self.new }
    {
        self.literal_count = counted.write_clause(x, k, self.literals, self.literal_count);
        self.ends[self.clause_count] = self.literal_count as u32;
        self.clause_count += 1;
    }

    // Writes the clauses of the term at x, as many as total, one by one.
    fn write_clauses(&mut self, counted: &CountedPool<'_>, x: TermPlace, total: u32)
        requires ask { AskList counted.now x.0 self.old }
        requires total { total ≡ length (list_at counted.now x.0) }
        ensures added { Added (list_at counted.now x.0) self.old self.new }
        ensures same_arrays { SameArrays self.old self.new }
    {
        for k in 0..total {
            self.push(counted, x, k);
        }
    }

    // Writes the list of the term at x: the term walker. The lists of an `and` follow one another. A list of no clause is passed over:
    // shared terms are then met no more often than there are clauses.
    #[cycle(write_list_write_lists)]
    fn write_list(&mut self, counted: &CountedPool<'_>, x: TermPlace)
        requires { AskList counted.now x.0 self.old }
        ensures added { Added (list_at counted.now x.0) self.old self.new }
        ensures same_arrays { SameArrays self.old self.new }
    {
        let view = normal_view(counted.pool, x);
        match view {
            NormalView::Literal => self.write_clauses(counted, x, 1),
            NormalView::Forall(_) => self.write_clauses(counted, x, 1),
            NormalView::Connective(kind) => {
                let total = count_at(counted.memo, x);
                if total == 0 {
                    return;
                }
                match kind {
                    ConnectiveKind::And => self.write_lists(counted, x),
                    ConnectiveKind::Or => self.write_clauses(counted, x, total),
                }
            }
        }
    }

    // Writes the lists of the operands of the term at x, which stand before it: the run walker.
    #[cycle(write_list_write_lists)]
    fn write_lists(&mut self, counted: &CountedPool<'_>, x: TermPlace)
        requires { AskJoined counted.now x.0 self.old }
        ensures added { Added (joined_at counted.now x.0) self.old self.new }
        ensures same_arrays { SameArrays self.old self.new }
    {
        let run = counted.pool.operands(x);
        for u in run {
            self.write_list(counted, TermPlace(*u));
        }
    }
}

// Writes the list of the term at x to the beginning of both arrays.
fn write_all(counted: &CountedPool<'_>, x: TermPlace, literals: &mut [u32], ends: &mut [u32])
    requires { AskAll counted.now x.0 literals.old ends.old }
    ensures literals { literals.new ≡ sets literals.old 0 (literal_places (list_at counted.now x.0)) }
    ensures ends { ends.new ≡ sets ends.old 0 (clause_ends 0 (list_at counted.now x.0)) }
{
    let mut lists = ClauseLists {
        literals,
        ends,
        literal_count: 0,
        clause_count: 0,
    };
    lists.write_list(counted, x);
}

// The refusal 32, or the two totals with the list, in arrays of zeroes.
fn list_counted(
    pool: &Pool<'_>,
    x: TermPlace,
    literals: &mut [u32],
    ends: &mut [u32],
) -> Result<Totals, Refusal>
    requires { ListReady pool.now.tags.now literals.old ends.old }
    ensures { ListAnswered (count_answer (cnf (form_at pool.now.tags.now pool.now.values.now x.0))) (cnf (form_at pool.now.tags.now pool.now.values.now x.0)) (length literals.old) (length ends.old) (counted result) literals.new ends.new }
{
    let mut memo = [0u32; CELLS];
    let totals = list_totals(pool, &mut memo, x);
    if MAX_CLAUSES < totals.clauses || MAX_LITERALS < totals.literals {
        return Err(Refusal::TooManyClauses);
    }
    let counted = CountedPool { pool, memo: &memo };
    write_all(&counted, x, literals, ends);
    Ok(totals)
}

// Writes zeroes to both arrays.
pub fn clear_list(literals: &mut [u32], ends: &mut [u32])
    ensures { Cut 0 literals.old ends.old literals.new ends.new }
{
    zero_from(literals, 0);
    zero_from(ends, 0);
}

// The clause list of the term at x: 13, 32, or its two totals, with the list in the arrays; refused, both arrays are zeroes.
pub fn list_clauses(
    pool: &Pool<'_>,
    x: TermPlace,
    literals: &mut [u32],
    ends: &mut [u32],
) -> Result<Totals, Refusal>
    requires { Lent (length pool.now.tags.now) (length literals.old) (length ends.old) }
    ensures { ListAnswered (list_answer (form_at pool.now.tags.now pool.now.values.now x.0)) (cnf (form_at pool.now.tags.now pool.now.values.now x.0)) (length literals.old) (length ends.old) (counted result) literals.new ends.new }
{
    clear_list(literals, ends);
    if empty_or(pool, x) {
        return Err(Refusal::EmptyOr);
    }
    list_counted(pool, x, literals, ends)
}
