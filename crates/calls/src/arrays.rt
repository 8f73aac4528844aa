// Arrays that are filled from a call file: each as long as any that a file may name.
ghost use Rattle.std.specs.Prelude.{◌≤◌, ◌≡◌, length};

use crate::call_files::HEAD;
use crate::layouts::Layout;
use step_files::words::{read_words, word};

// The entries that a file may have, more than any table that loads.
pub const MAX_ENTRIES: usize = 300;

// One byte more than the longest call file has: a longer one has a wrong length too.
pub const FILE_BYTES: usize = 109245;

// The k words from position start on, at the front of an array.
pub fn read_array<const N: usize>(bytes: &[u8], start: usize, k: usize) -> [u32; N]
    requires { k ≤ N }
    ensures { N ≡ length result }
{
    let mut array = [0; N];
    read_words(bytes, start, &mut array[..k]);
    array
}

// Reads the tags after the head. None where one of them does not fit.
pub fn read_tags<T: Layout>(bytes: &[u8], tags: &mut [T]) -> Option<()>
    requires { length tags.old ≤ 9000 }
{
    for (i, tag) in tags.iter_mut().enumerate() {
        *tag = T::from_word(word(bytes, HEAD + i))?;
    }
    Some(())
}
