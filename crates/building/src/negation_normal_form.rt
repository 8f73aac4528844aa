// The negation normal form of a term, built into the pool. The walk reads the cells before `end`. In the array `work` a memo keeps where
// the form of a term at a polarity stands, one more than its place, so that each is built once however terms are shared; the row after it
// holds the cells of one new term at a time.
// Kept: the pool, the walk's array and `end` come one by one: where one struct over the pool's own ends, the check says nothing of what the
// references of the inner one hold.
// Kept: a polarity is a truth value, as document 01's call has it; `!polarity` is what the walk goes by.
ghost use Rattle.std.specs.Prelude.{◌≡◌, not, ◌<◌, replicate};
ghost use Rattle.formulas.specs.declared.view.View.TheVariants.{AndOr, Quantifier};
ghost use Rattle.formulas.specs.Normal.{pair};
ghost use Rattle.formulas.specs.Built.{normal_form};
ghost use Rattle.descriptions.specs.IndexedPool.{HasIndex, SameArrays};
ghost use Rattle.building.specs.Walk.{normal, AllBelow, two_pairs};
ghost use Rattle.building.specs.Lent.{cells_in, PoolReady, NormalBuiltIn, Ready, view_in, BeforeIn, form_in, FormedIn, KnownIn, OperandsIn};

use crate::terms::{WORK, literal, put_connective, put_pair, put_quantifier, slot};
use formulas::kinds::{ConnectiveKind, QuantifierKind};
use formulas::view::{View, view_of};
use pool::TermPlace;
use pool::index::IndexedPool;

// The place of a term, and a polarity.
#[derive(Clone, Copy)]
struct Signed(TermPlace, bool);

// The normal form of the term at t at a polarity, put into the pool.
#[cycle(connective_form_expand_negation_normal_form_operand_forms_pair_of_quantifier_form_two_pairs)]
fn negation_normal_form(
    pool: &mut IndexedPool<'_>,
    work: &mut [u32; WORK],
    end: usize,
    t: TermPlace,
    polarity: bool,
) -> Option<TermPlace>
    requires ready { Ready normal end pool.old work.old }
    requires t_lt_end { t.0 < end }
    ensures known { KnownIn normal end pool.old work.old t.0 polarity result pool.new work.new }
    ensures has_index { HasIndex pool.new }
    ensures same_arrays { SameArrays pool.old pool.new }
{
    let i = slot(t, polarity);
    let known = work[i];
    if known != 0 {
        return Some(TermPlace(known - 1));
    }
    let p = expand(pool, work, end, t, polarity)?;
    work[i] = p.0 + 1;
    Some(p)
}

// The same for a term that the memo does not have.
#[cycle(connective_form_expand_negation_normal_form_operand_forms_pair_of_quantifier_form_two_pairs)]
fn expand(
    pool: &mut IndexedPool<'_>,
    work: &mut [u32; WORK],
    end: usize,
    t: TermPlace,
    polarity: bool,
) -> Option<TermPlace>
    requires ready { Ready normal end pool.old work.old }
    requires t_lt_end { t.0 < end }
    ensures formed { FormedIn normal end pool.old work.old (form_in normal end pool.old t.0 polarity) result pool.new work.new }
    ensures has_index { HasIndex pool.new }
    ensures same_arrays { SameArrays pool.old pool.new }
{
    let source = pool.first(end);
    let view = view_of(&source, t);
    match view {
        View::Opaque => literal(pool, t, polarity),
        View::Not(a) => negation_normal_form(pool, work, end, a, !polarity),
        View::AndOr(kind) => connective_form(pool, work, end, t, polarity, kind),
        View::Implies(a, b) => pair_of(pool, work, end, polarity, Signed(a, !polarity), b),
        View::Ite(a, b, c) => two_pairs(pool, work, end, polarity, a, b, Signed(a, polarity), c),
        View::Iff(a, b) => two_pairs(pool, work, end, polarity, a, b, Signed(b, !polarity), a),
        View::Quantifier(kind, body) => quantifier_form(pool, work, end, t, polarity, kind, body),
    }
}

// The same for a connective: over the normal forms of its operands.
#[cycle(connective_form_expand_negation_normal_form_operand_forms_pair_of_quantifier_form_two_pairs)]
fn connective_form(
    pool: &mut IndexedPool<'_>,
    work: &mut [u32; WORK],
    end: usize,
    t: TermPlace,
    polarity: bool,
    kind: ConnectiveKind,
) -> Option<TermPlace>
    requires ready { Ready normal end pool.old work.old }
    requires t_lt_end { t.0 < end }
    requires t_value { view_in end pool.old t.0 ≡ AndOr kind }
    ensures formed { FormedIn normal end pool.old work.old (form_in normal end pool.old t.0 polarity) result pool.new work.new }
    ensures has_index { HasIndex pool.new }
    ensures same_arrays { SameArrays pool.old pool.new }
{
    operand_forms(pool, work, end, t, polarity)?;
    put_connective(pool, work, end, t, polarity, kind)
}

// The same for a quantifier: over the normal form of its body.
#[cycle(connective_form_expand_negation_normal_form_operand_forms_pair_of_quantifier_form_two_pairs)]
fn quantifier_form(
    pool: &mut IndexedPool<'_>,
    work: &mut [u32; WORK],
    end: usize,
    t: TermPlace,
    polarity: bool,
    kind: QuantifierKind,
    body: TermPlace,
) -> Option<TermPlace>
    requires ready { Ready normal end pool.old work.old }
    requires t_lt_end { t.0 < end }
    requires t_value { view_in end pool.old t.0 ≡ Quantifier kind body }
    ensures formed { FormedIn normal end pool.old work.old (form_in normal end pool.old t.0 polarity) result pool.new work.new }
    ensures has_index { HasIndex pool.new }
    ensures same_arrays { SameArrays pool.old pool.new }
{
    let p = negation_normal_form(pool, work, end, body, polarity)?;
    put_quantifier(pool, work, end, t, polarity, kind, p)
}

// The normal forms of the operands of the term at t, whose places the memo then has.
#[cycle(connective_form_expand_negation_normal_form_operand_forms_pair_of_quantifier_form_two_pairs)]
fn operand_forms(
    pool: &mut IndexedPool<'_>,
    work: &mut [u32; WORK],
    end: usize,
    t: TermPlace,
    polarity: bool,
) -> Option<()>
    requires ready { Ready normal end pool.old work.old }
    requires t_lt_end { t.0 < end }
    requires before { BeforeIn end pool.old t.0 }
    ensures operands { OperandsIn normal end pool.old work.old t.0 polarity result pool.new work.new }
    ensures has_index { HasIndex pool.new }
    ensures same_arrays { SameArrays pool.old pool.new }
{
    let source = pool.first(end);
    let count = source.operands(t).len();
    for i in 0..count {
        let source = pool.first(end);
        let u = TermPlace(source.operands(t)[i]);
        negation_normal_form(pool, work, end, u, polarity)?;
    }
    Some(())
}

// A pair of the normal forms of a and, at the polarity, of b: their `or`, and their `and` at false polarity.
#[cycle(connective_form_expand_negation_normal_form_operand_forms_pair_of_quantifier_form_two_pairs)]
fn pair_of(
    pool: &mut IndexedPool<'_>,
    work: &mut [u32; WORK],
    end: usize,
    polarity: bool,
    a: Signed,
    b: TermPlace,
) -> Option<TermPlace>
    requires ready { Ready normal end pool.old work.old }
    requires a_lt_end { a.0.0 < end }
    requires b_lt_end { b.0 < end }
    ensures formed { FormedIn normal end pool.old work.old (pair (not polarity) (form_in normal end pool.old a.0.0 a.1) (form_in normal end pool.old b.0 polarity)) result pool.new work.new }
    ensures has_index { HasIndex pool.new }
    ensures same_arrays { SameArrays pool.old pool.new }
{
    let p = negation_normal_form(pool, work, end, a.0, a.1)?;
    let q = negation_normal_form(pool, work, end, b, polarity)?;
    put_pair(pool, ConnectiveKind::Or.at(polarity), p, q)
}

// The two pairs that an `ite` or an equality becomes: of a, flipped, and b; of c and d. The left pair is whole before the right
// one begins: the order of the finished term.
#[cycle(connective_form_expand_negation_normal_form_operand_forms_pair_of_quantifier_form_two_pairs)]
fn two_pairs(
    pool: &mut IndexedPool<'_>,
    work: &mut [u32; WORK],
    end: usize,
    polarity: bool,
    a: TermPlace,
    b: TermPlace,
    c: Signed,
    d: TermPlace,
) -> Option<TermPlace>
    requires ready { Ready normal end pool.old work.old }
    requires all_below { AllBelow end a.0 b.0 c.0.0 d.0 }
    ensures formed { FormedIn normal end pool.old work.old (two_pairs polarity (λ t p. form_in normal end pool.old t p) a.0 b.0 c.0.0 c.1 d.0) result pool.new work.new }
    ensures has_index { HasIndex pool.new }
    ensures same_arrays { SameArrays pool.old pool.new }
{
    let p = pair_of(pool, work, end, polarity, Signed(a, !polarity), b)?;
    let q = pair_of(pool, work, end, polarity, c, d)?;
    put_pair(pool, ConnectiveKind::And.at(polarity), p, q)
}

// The normal form of the term at t at a polarity, put into the pool, with an empty array for the walk.
pub fn build_normal_form(
    pool: &mut IndexedPool<'_>,
    work: &mut [u32; WORK],
    t: TermPlace,
    polarity: bool,
) -> Option<TermPlace>
    requires pool_ready { PoolReady pool.old.count pool.old }
    requires t_lt_count { t.0 < pool.old.count }
    requires work_value { work.old ≡ replicate 24576 0 }
    ensures normal_built { NormalBuiltIn pool.old (normal_form (cells_in pool.old) t.0 polarity) result pool.new }
    ensures has_index { HasIndex pool.new }
    ensures same_arrays { SameArrays pool.old pool.new }
{
    let end = pool.count;
    negation_normal_form(pool, work, end, t, polarity)
}
