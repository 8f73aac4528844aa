// The variables that the pairs of a binding list bind.
ghost use Rattle.std.specs.Prelude.{◌≡◌};
ghost use Rattle.descriptions.specs.Index.{PointsBack};
ghost use Rattle.appearance.specs.Pairs.{variable_of};

use cells::pool::Pool;
use cells::tags::VARIABLE;
use descriptions::index::{INDEX, look_up};
use free_variables::pair_kind::{PairKind, pair_sort};

// The place of the variable that the pair a, b binds, where one stands in the pool.
pub fn variable_of(
    pool: &Pool<'_>,
    index: &[u32; INDEX],
    kind: PairKind,
    a: u32,
    b: u32,
) -> Option<usize>
    requires { PointsBack index.now }
    ensures { result ≡ variable_of pool.now.tags.now pool.now.values.now index.now kind a b }
{
    let sort = pair_sort(pool, kind, b).0;
    look_up(pool, index, VARIABLE, &[sort, a])
}
