// A table of the names that a term has, made in one walk: a filter before the walks for single variables. A name with a sort has
// a bucket, by a hash. Binders take no name out of the table. A memo, a byte for each place, keeps the places whose names
// are in it; a place past the memo's end is walked anew.
ghost use Rattle.std.specs.Prelude.{◌≡◌, ◌+◌, get_or, set};
ghost use Rattle.cells.specs.Cell.{sort_of};
ghost use Rattle.free_variables.specs.Free.{let_values};
ghost use Rattle.free_variables.specs.Names.{bucket_of, may_be_free, free_in, NamesMarked};
ghost use Rattle.free_variables.specs.Occurs.{OccursFrom};
ghost use Rattle.free_variables.specs.NamesWalk.{free_among, FreeFromMeans, NamesMemo, NamesWalked};

use crate::free_vars::variable_at;
use cells::TermPlace;
use cells::limits::CELLS;
use cells::marks::{mark_at, set_mark};
use cells::pool::Pool;
use cells::run::cell;
use cells::tags::{APPLICATION, BINDERS_END, FORALL, LET, VARIABLE};
use cells::variable::Variable;

// The buckets of a table of names, a prime below 8,192.
const BUCKETS: usize = 8191;

// The bucket of a variable.
fn bucket(v: Variable) -> usize
    ensures { result ≡ bucket_of v.name v.sort.0 }
{
    (v.name as usize % BUCKETS * 31 + v.sort.0 as usize % BUCKETS) % BUCKETS
}

// Whether a variable may be free: its bucket is set, or stands past the table's end.
pub fn may_be_free(names: &[u8], v: Variable) -> bool
    ensures { result ≡ may_be_free names.now v.name v.sort.0 }
{
    names.get(bucket(v)).copied().unwrap_or(1) == 1
}

// Sets the bucket of the variable at v.
fn mark_name(pool: &Pool<'_>, names: &mut [u8], v: TermPlace)
    ensures { names.new ≡ set names.old (bucket_of (get_or pool.now.values.now (v.0 + 2) 0) (sort_of pool.now.values.now v.0)) 1 }
{
    let at = bucket(variable_at(pool, v));
    if at < names.len() {
        names[at] = 1;
    }
}

// Where a term's free variables are: nowhere, at the term itself, in the body under its pairs, in the operand run, in a let's
// values, or in its values and in its body under its pairs.
#[derive(Clone, Copy)]
pub enum FreeFrom {
    Nothing,
    Variable,
    Body(TermPlace),
    Run,
    Values,
    Let(TermPlace),
}

// Where the free variables of the term at t are.
pub fn free_from(pool: &Pool<'_>, t: TermPlace) -> FreeFrom
    ensures means { FreeFromMeans pool.now.tags.now pool.now.values.now t.0 result }
    ensures occurs { OccursFrom pool.now.tags.now pool.now.values.now t.0 result }
{
    let at = t.0 as usize;
    let tag = pool.tag_at(at);
    if tag < VARIABLE {
        return FreeFrom::Nothing;
    }
    if tag < APPLICATION {
        return FreeFrom::Variable;
    }
    if tag < FORALL {
        return FreeFrom::Run;
    }
    if BINDERS_END <= tag {
        return FreeFrom::Run;
    }
    let body = cell(pool.operands(t), 0);
    if tag == LET {
        if t.0 <= body {
            return FreeFrom::Values;
        }
        return FreeFrom::Let(TermPlace(body));
    }
    if t.0 <= body {
        return FreeFrom::Nothing;
    }
    FreeFrom::Body(TermPlace(body))
}

// Marks the names of the term at t: the term walker.
#[cycle(names_of_run_names_of_term_names_of_values)]
fn names_of_term(pool: &Pool<'_>, seen: &mut [u8], names: &mut [u8], t: TermPlace)
    requires { NamesMemo pool.now.tags.now pool.now.values.now seen.old names.old }
    ensures { NamesWalked pool.now.tags.now pool.now.values.now names.old seen.new names.new (free_in pool.now.tags.now pool.now.values.now t.0) }
{
    if mark_at(seen, t) == 1 {
        return;
    }
    let run = pool.operands(t);
    match free_from(pool, t) {
        FreeFrom::Nothing => {}
        FreeFrom::Variable => mark_name(pool, names, t),
        FreeFrom::Body(u) => names_of_term(pool, seen, names, u),
        FreeFrom::Run => names_of_run(pool, seen, names, t, run),
        FreeFrom::Values => names_of_values(pool, seen, names, t, run),
        FreeFrom::Let(u) => {
            names_of_values(pool, seen, names, t, run);
            names_of_term(pool, seen, names, u)
        }
    }
    set_mark(seen, t)
}

// Marks the names of the terms of a run that stand before t: the run walker.
#[cycle(names_of_run_names_of_term_names_of_values)]
fn names_of_run(pool: &Pool<'_>, seen: &mut [u8], names: &mut [u8], t: TermPlace, run: &[u32])
    requires { NamesMemo pool.now.tags.now pool.now.values.now seen.old names.old }
    ensures { NamesWalked pool.now.tags.now pool.now.values.now names.old seen.new names.new (free_among pool.now.tags.now pool.now.values.now t.0 run.now) }
{
    if run.len() == 0 {
        return;
    }
    let u = run[0];
    if t.0 <= u {
        return names_of_run(pool, seen, names, t, &run[1..]);
    }
    names_of_term(pool, seen, names, TermPlace(u));
    names_of_run(pool, seen, names, t, &run[1..])
}

// Marks the names of a let's values that stand before t: the values walker. The run's first cell is the body, or a value that the
// walk has passed.
// Kept beside the run walker: one for both would take where a list begins and its step, and laws of every second cell.
#[cycle(names_of_run_names_of_term_names_of_values)]
fn names_of_values(pool: &Pool<'_>, seen: &mut [u8], names: &mut [u8], t: TermPlace, run: &[u32])
    requires { NamesMemo pool.now.tags.now pool.now.values.now seen.old names.old }
    ensures { NamesWalked pool.now.tags.now pool.now.values.now names.old seen.new names.new (free_among pool.now.tags.now pool.now.values.now t.0 (let_values run.now)) }
{
    if run.len() < 3 {
        return;
    }
    let u = run[2];
    if t.0 <= u {
        return names_of_values(pool, seen, names, t, &run[2..]);
    }
    names_of_term(pool, seen, names, TermPlace(u));
    names_of_values(pool, seen, names, t, &run[2..])
}

// Sets the bucket of every variable that is free in the term at t.
pub fn mark_names(pool: &Pool<'_>, t: TermPlace, names: &mut [u8])
    ensures { NamesMarked pool.now.tags.now pool.now.values.now names.new (free_in pool.now.tags.now pool.now.values.now t.0) }
{
    let mut seen = [0u8; CELLS];
    names_of_term(pool, &mut seen, names, t)
}
