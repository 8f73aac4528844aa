// Putting terms into the pool.
ghost use Rattle.formulas.specs.Built.{put};
ghost use Rattle.descriptions.specs.IndexedPool.{HasIndex, SameArrays};
ghost use Rattle.building.specs.Lent.{cells_in, PoolReady, PutsIn};

use pool::TermPlace;
use pool::index::IndexedPool;

// Puts a description into the pool, and gives its place: where it stands already, nothing changes. None, here and in the walks, is no room.
pub(crate) fn put(pool: &mut IndexedPool<'_>, tag: u8, cells: &[u32]) -> Option<TermPlace>
    requires { PoolReady pool.old.count pool.old }
    ensures puts { PutsIn pool.old (put (cells_in pool.old) tag cells.now) result pool.new }
    ensures has_index { HasIndex pool.new }
    ensures same_arrays { SameArrays pool.old pool.new }
{
    let p = pool.add(tag, cells)?;
    Some(TermPlace(p as u32))
}
