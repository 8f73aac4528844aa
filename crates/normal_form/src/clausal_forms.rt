// The two forms of a body that rule 3 goes by, built after the pool: its normal form, and that with foralls taken out. The index has
// the pool's headers again afterwards.
ghost use Rattle.std.specs.Prelude.{◌<◌};
ghost use Rattle.descriptions.specs.IndexedPool.{SameArrays, IndexedAgain};
ghost use Rattle.building.specs.Lent.{PoolReady};
ghost use Rattle.normal_form.specs.ClausalForms.{FormsBuilt};

use building::negation_normal_form::build_normal_form;
use building::prenex_forall::build_taken_out;
use building::terms::WORK;
use pool::TermPlace;
use pool::index::{IndexedPool, forget, index_headers};

// Where the normal form stands, with the count after it, and the same of the taken-out form.
#[derive(Clone, Copy, PartialEq, Eq)]
pub struct ClausalForms {
    pub normal: TermPlace,
    pub normal_count: usize,
    pub taken_out: TermPlace,
    pub count: usize,
}

// Builds both forms of the term at t, if there is room.
pub fn build_forms(pool: &mut IndexedPool<'_>, t: TermPlace) -> Option<ClausalForms>
    requires pool_ready { PoolReady pool.old.count pool.old }
    requires t_lt_count { t.0 < pool.old.count }
    ensures forms_built { FormsBuilt pool.old.count t.0 pool.old.tags.now pool.old.values.now result pool.new.tags.now pool.new.values.now }
    ensures indexed_again { IndexedAgain pool.old pool.new }
    ensures same_arrays { SameArrays pool.old pool.new }
{
    let n = pool.count;
    let mut work = [0u32; WORK];
    let Some(normal) = build_normal_form(pool, &mut work, t, true) else {
        index_headers(&mut *pool.tags, &mut *pool.values, n, &mut *pool.index);
        pool.count = n;
        return None;
    };
    let m = pool.count;
    let Some(taken_out) = build_taken_out(pool, &mut work, normal) else {
        index_headers(&mut *pool.tags, &mut *pool.values, n, &mut *pool.index);
        pool.count = n;
        return None;
    };
    let k = pool.count;
    forget(&mut *pool.tags, &mut *pool.values, &mut *pool.index, n, k);
    pool.count = n;
    Some(ClausalForms {
        normal,
        normal_count: m,
        taken_out,
        count: k,
    })
}
