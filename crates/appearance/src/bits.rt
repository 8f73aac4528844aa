// Rows of bits in an array of words: bit k of the row that starts at `from` is bit k % 32 of the word at `from` + k / 32. A word
// past the array's end is 0, and is not written.
ghost use Rattle.std.specs.Prelude.{◌≡◌};
ghost use Rattle.appearance.specs.Bits.{with_bit, without_bit, meets};

use cells::run::cell;

// Sets bit k of a row.
pub fn set_bit(a: &mut [u32], from: u32, k: u32)
    ensures { a.new ≡ with_bit a.old from k }
{
    let i = from as usize + (k / 32) as usize;
    if i < a.len() {
        a[i] |= 1 << (k % 32);
    }
}

// Clears bit k of a row.
pub fn clear_bit(a: &mut [u32], from: u32, k: u32)
    ensures { a.new ≡ without_bit a.old from k }
{
    let i = from as usize + (k / 32) as usize;
    let bit: u32 = 1 << (k % 32);
    if cell(a, i) & bit == 0 {
        return;
    }
    if i < a.len() {
        a[i] ^= bit;
    }
}

// Whether two rows of this many words have a bit in common.
pub fn meets(a: &[u32], from: u32, b: &[u32], start: u32, words: u32) -> bool
    ensures { result ≡ meets a.now from b.now start words }
{
    for j in 0..words {
        let x = cell(a, from as usize + j as usize);
        let y = cell(b, start as usize + j as usize);
        if x & y != 0 {
            return true;
        }
    }
    false
}
