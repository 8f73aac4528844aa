// Marks of terms: a byte for each place. A place past the array's end has the mark 0, and is not marked.
ghost use Rattle.std.specs.Prelude.{◌≡◌, length, get_or, set, replicate};
ghost use Rattle.cells.specs.Marks.{MarkNoted};

use crate::TermPlace;

// The mark of a place.
pub fn mark_at(marks: &[u8], t: TermPlace) -> u8
    ensures { result ≡ get_or marks.now t.0 0 }
{
    marks.get(t.0 as usize).copied().unwrap_or(0)
}

// Marks a place with 1.
pub fn set_mark(marks: &mut [u8], t: TermPlace)
    ensures { marks.new ≡ set marks.old t.0 1 }
{
    let i = t.0 as usize;
    if i < marks.len() {
        marks[i] = 1;
    }
}

// Marks a place whose answer is no, and hands the answer back: a walk that ends at a yes notes no other.
pub fn note_no(marks: &mut [u8], t: TermPlace, answer: bool) -> bool
    ensures { MarkNoted marks.old t.0 answer marks.new result }
{
    if answer {
        return true;
    }
    set_mark(marks, t);
    false
}

// Sets every mark to 0.
pub fn clear_marks(marks: &mut [u8])
    ensures { marks.new ≡ replicate (length marks.old) 0 }
{
    marks.fill(0);
}
