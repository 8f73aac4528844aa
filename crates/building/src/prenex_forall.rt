// The taken-out form of a term in normal form, built into the pool: foralls are taken out through `and`, `or` and forall alone.
// The walk reads the cells before `end`. The array `work` is as for the normal form, at true polarity alone.
// Kept: the pool, the walk's array and `end` come one by one: where one struct over the pool's own ends, the check says nothing of what the
// references of the inner one hold.
ghost use Rattle.std.specs.Prelude.{true, ◌<◌};
ghost use Rattle.formulas.specs.Built.{taken_out_form};
ghost use Rattle.descriptions.specs.IndexedPool.{HasIndex, SameArrays};
ghost use Rattle.building.specs.Walk.{taken_out};
ghost use Rattle.building.specs.Lent.{cells_in, PoolReady, NormalBuiltIn, Ready, BeforeIn, form_in, FormedIn, KnownIn, OperandsIn};

use crate::terms::{WORK, clear_memo, put_connective, slot};
use formulas::view::{NormalView, normal_view};
use pool::TermPlace;
use pool::index::IndexedPool;

// The taken-out form of the term at x, put into the pool.
#[cycle(operand_forms_prenex_forall_take_out)]
fn prenex_forall(
    pool: &mut IndexedPool<'_>,
    work: &mut [u32; WORK],
    end: usize,
    x: TermPlace,
) -> Option<TermPlace>
    requires ready { Ready taken_out end pool.old work.old }
    requires x_lt_end { x.0 < end }
    ensures known { KnownIn taken_out end pool.old work.old x.0 true result pool.new work.new }
    ensures has_index { HasIndex pool.new }
    ensures same_arrays { SameArrays pool.old pool.new }
{
    let i = slot(x, true);
    let known = work[i];
    if known != 0 {
        return Some(TermPlace(known - 1));
    }
    let p = take_out(pool, work, end, x)?;
    work[i] = p.0 + 1;
    Some(p)
}

// The same for a term that the memo does not have.
#[cycle(operand_forms_prenex_forall_take_out)]
fn take_out(
    pool: &mut IndexedPool<'_>,
    work: &mut [u32; WORK],
    end: usize,
    x: TermPlace,
) -> Option<TermPlace>
    requires ready { Ready taken_out end pool.old work.old }
    requires x_lt_end { x.0 < end }
    ensures formed { FormedIn taken_out end pool.old work.old (form_in taken_out end pool.old x.0 true) result pool.new work.new }
    ensures has_index { HasIndex pool.new }
    ensures same_arrays { SameArrays pool.old pool.new }
{
    let source = pool.first(end);
    let view = normal_view(&source, x);
    match view {
        NormalView::Literal => Some(x),
        NormalView::Forall(body) => prenex_forall(pool, work, end, body),
        NormalView::Connective(kind) => {
            operand_forms(pool, work, end, x)?;
            put_connective(pool, work, end, x, true, kind)
        }
    }
}

// The taken-out forms of the operands of the term at x, whose places the memo then has.
#[cycle(operand_forms_prenex_forall_take_out)]
fn operand_forms(
    pool: &mut IndexedPool<'_>,
    work: &mut [u32; WORK],
    end: usize,
    x: TermPlace,
) -> Option<()>
    requires ready { Ready taken_out end pool.old work.old }
    requires x_lt_end { x.0 < end }
    requires before { BeforeIn end pool.old x.0 }
    ensures operands { OperandsIn taken_out end pool.old work.old x.0 true result pool.new work.new }
    ensures has_index { HasIndex pool.new }
    ensures same_arrays { SameArrays pool.old pool.new }
{
    let source = pool.first(end);
    let count = source.operands(x).len();
    for i in 0..count {
        let source = pool.first(end);
        let u = TermPlace(source.operands(x)[i]);
        prenex_forall(pool, work, end, u)?;
    }
    Some(())
}

// The taken-out form of the term in normal form at x, put into the pool.
pub fn build_taken_out(
    pool: &mut IndexedPool<'_>,
    work: &mut [u32; WORK],
    x: TermPlace,
) -> Option<TermPlace>
    requires pool_ready { PoolReady pool.old.count pool.old }
    requires x_lt_count { x.0 < pool.old.count }
    ensures normal_built { NormalBuiltIn pool.old (taken_out_form (cells_in pool.old) x.0) result pool.new }
    ensures has_index { HasIndex pool.new }
    ensures same_arrays { SameArrays pool.old pool.new }
{
    clear_memo(work);
    let end = pool.count;
    prenex_forall(pool, work, end, x)
}
