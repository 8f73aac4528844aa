// Tags narrowed to bytes, and bytes written back to tags.
ghost use Rattle.std.specs.Prelude.{◌≤◌, ◌≡◌, length};
ghost use Rattle.cells.specs.Limits.{cell_limit};
ghost use Rattle.descriptions.specs.Description.{Cut};
ghost use Rattle.tag_layouts.specs.Narrowed.{narrow, NarrowedInto};
ghost use Rattle.tag_layouts.specs.WrittenBack.{written_back, BackFits};

use cells::limits::CELLS;
use cells::tags::REL_PRODUCT;
use descriptions::description::zero_from;

// The last tag, that of `RelProduct`.
const LAST_TAG: u32 = REL_PRODUCT as u32;

// The byte for a number past the last tag, which is no tag either.
const OTHER: u8 = 255;

// A tag as a byte.
pub fn byte_of(tag: u32) -> u8
    ensures { result ≡ narrow tag }
{
    if LAST_TAG < tag { OTHER } else { tag as u8 }
}

// The tags that a call can look at, as bytes at the front of the lent array; their number.
pub fn narrow_into(tags: &[u32], bytes: &mut [u8]) -> usize
    requires { cell_limit ≤ length bytes.old }
    ensures { NarrowedInto tags.now result bytes.new }
{
    let k = CELLS.min(tags.len());
    for (i, tag) in tags[..k].iter().enumerate() {
        bytes[i] = byte_of(*tag);
    }
    k
}

// Writes the bytes from n on to the tags, and 0 past the bytes.
pub fn write_back(tags: &mut [u32], bytes: &[u8], n: usize)
    requires { BackFits n tags.old bytes.now }
    ensures { tags.new ≡ written_back n tags.old bytes.now }
{
    for i in n..bytes.len() {
        tags[i] = u32::from(bytes[i]);
    }
    zero_from(tags, bytes.len());
}

// Writes 0 to every cell of both arrays from n on.
pub fn cut_back(tags: &mut [u32], values: &mut [u32], n: usize)
    ensures { Cut n tags.old values.old tags.new values.new }
{
    zero_from(tags, n);
    zero_from(values, n);
}
