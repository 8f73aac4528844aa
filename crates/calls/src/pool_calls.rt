// The calls on a pool, in either layout of its tags.
ghost use Rattle.calls.specs.Format.{Bounded};

use crate::arrays::read_array;
use crate::call_files::{HEAD, Head, MOST, conclusion_count, ends_count, lent_count};
use crate::layouts::{Layout, Lent};
use crate::report;
use pool::TermPlace;
use std::io;
use std::io::Write;

// Call 0: the check of a step, whose conclusion follows the values in the file.
pub fn check<T: Layout, W: Write>(
    pool: &mut Lent<T>,
    bytes: &[u8],
    head: Head,
    out: &mut W,
) -> io::Result<()>
    requires { Bounded head }
{
    let x = conclusion_count(head);
    let places = read_array::<MOST>(bytes, HEAD + head.tags + head.values, x);
    let answer = T::check(pool, head.place, &places[..x]);
    report::pool_after(answer, 0, pool, out)
}

// Call 1: the sort of a term.
pub fn sort<T: Layout, W: Write>(pool: &Lent<T>, head: Head, out: &mut W) -> io::Result<()> {
    let answer = T::sort_of_term(pool, TermPlace(head.place));
    report::pool_after(answer, 0, pool, out)
}

// Call 2: the free variables of a term. A lent array begins with 7 in every element.
pub fn free_vars<T: Layout, W: Write>(pool: &Lent<T>, head: Head, out: &mut W) -> io::Result<()>
    requires { Bounded head }
{
    let mut marks = [7u8; MOST];
    let lent = &mut marks[..lent_count(head)];
    let answer = T::free_vars(pool, TermPlace(head.place), lent);
    report::pool_after(answer, 0, pool, out)?;
    report::line(b"marks", lent, out)
}

// Call 3: the normal form of a term.
pub fn normal_form<T: Layout, W: Write>(
    pool: &mut Lent<T>,
    head: Head,
    out: &mut W,
) -> io::Result<()> {
    let answer = T::normal_form(pool, TermPlace(head.place), head.polarity != 0);
    report::pool_after(answer, 0, pool, out)
}

// Call 4: the clause list of a term.
pub fn clause_list<T: Layout, W: Write>(
    pool: &mut Lent<T>,
    head: Head,
    out: &mut W,
) -> io::Result<()>
    requires { Bounded head }
{
    let mut literals = [7u32; MOST];
    let mut ends = [7u32; MOST];
    let lent = &mut literals[..lent_count(head)];
    let lent_ends = &mut ends[..ends_count(head)];
    let listed = T::clause_list(pool, TermPlace(head.place), lent, lent_ends);
    report::pool_after(listed.answer, listed.count, pool, out)?;
    report::line(b"literals", lent, out)?;
    report::line(b"ends", lent_ends, out)
}
