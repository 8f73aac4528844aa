// Sorts with at most one part.
ghost use Rattle.std.specs.Prelude.{◌≡◌, [], ◌∷◌};
ghost use Rattle.cells.specs.Cell.{is_at};

use cells::SortPlace;
use cells::pool::Pool;

// Whether the sort at s has this tag and no parts.
pub fn is_plain(pool: &Pool<'_>, s: SortPlace, tag: u8) -> bool
    ensures { result ≡ is_at pool.now.tags.now pool.now.values.now s.0 tag [] }
{
    let at = s.0 as usize;
    pool.is_at(at, tag, &pool.values[0..0])
}

// Whether the sort at s has this tag and this one part.
pub fn is_single(pool: &Pool<'_>, s: SortPlace, tag: u8, part: u32) -> bool
    ensures { result ≡ is_at pool.now.tags.now pool.now.values.now s.0 tag (part ∷ []) }
{
    let at = s.0 as usize;
    let parts = [part];
    pool.is_at(at, tag, &parts)
}
