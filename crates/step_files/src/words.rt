// u32 little-endian words of a byte slice, which reads as zeroes past its end.
ghost use Rattle.std.specs.Prelude.{◌+◌, ◌≡◌, length, get_or};
ghost use Rattle.step_files.specs.Words.{word_at, words_from};

fn byte(bytes: &[u8], i: usize) -> u8
    ensures { result ≡ get_or bytes.now i 0 }
{
    bytes.get(i).copied().unwrap_or(0)
}

// The word at i, counted in words.
pub fn word(bytes: &[u8], i: usize) -> u32
    ensures { result ≡ word_at bytes.now i }
{
    if bytes.len() / 4 < i {
        return 0;
    }
    let at = 4 * i;
    u32::from_le_bytes([
        byte(bytes, at),
        byte(bytes, at + 1),
        byte(bytes, at + 2),
        byte(bytes, at + 3),
    ])
}

// The same where the sum of two positions may pass usize.
pub(crate) fn word_after(bytes: &[u8], start: usize, i: usize) -> u32
    ensures { result ≡ word_at bytes.now (start + i) }
{
    if bytes.len() < start {
        return 0;
    }
    if bytes.len() - start < i {
        return 0;
    }
    word(bytes, start + i)
}

// Fills out with the words from position start on.
pub fn read_words(bytes: &[u8], start: usize, out: &mut [u32])
    ensures { out.new ≡ words_from bytes.now start (length out.old) }
{
    for (i, cell) in out.iter_mut().enumerate() {
        *cell = word_after(bytes, start, i);
    }
}
