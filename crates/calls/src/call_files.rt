// The layout of a call file: u32 little-endian words. Blocks may stand first: 100 with a table of sort rules, its length and its entries,
// and then 102, which has tags lent as bytes. Then eight words are call, T, V, N, rule or place, polarity, X and Y. T tags and V values
// follow, and in a call 0 the X places of the conclusion.
ghost use Rattle.std.specs.Prelude.{◌≤◌, ◌≡◌};
ghost use Rattle.calls.specs.Calls.{Numbers};
ghost use Rattle.calls.specs.Format.{has_table, entry_count, table_words, lent_in_bytes, block_words, head_of, lent_count, ends_count, conclusion_count, is_whole};

use step_files::words::word;

// The words that the calls use: X is `lent`, the length of the conclusion, of the marks or of the literals, and Y is `ends`, that
// of the clause ends.
#[derive(Clone, Copy)]
pub struct Head {
    pub call: u32,
    pub tags: usize,
    pub values: usize,
    pub n: usize,
    pub place: u32,
    pub polarity: u32,
    pub lent: usize,
    pub ends: usize,
}

// Its words.
pub const HEAD: usize = 8;

// The elements that an array of a call may have.
pub const MOST: usize = 9000;

// The calls, in the order of their numbers, which are their first words.
#[derive(Clone, Copy)]
pub enum Call {
    Check,
    Sort,
    FreeVars,
    NormalForm,
    ClauseList,
    Load,
}

// A number that no call has.
#[derive(Clone, Copy)]
pub struct NoCall;

impl TryFrom<u32> for Call {
    type Error = NoCall;

    ghost try_from_gives = { Numbers };

    fn try_from(number: u32) -> Result<Call, NoCall> {
        match number {
            0 => Ok(Call::Check),
            1 => Ok(Call::Sort),
            2 => Ok(Call::FreeVars),
            3 => Ok(Call::NormalForm),
            4 => Ok(Call::ClauseList),
            5 => Ok(Call::Load),
            _ => Err(NoCall),
        }
    }
}

// The block that has the table of sort rules in use, and the one that has tags lent as bytes.
const TABLE: u32 = 100;

const BYTE_TAGS: u32 = 102;

// The words of block 100 before its entries.
pub const TABLE_HEAD: usize = 2;

// Whether the file begins with a table.
#[tactic(auto, unfolding(crate::specs::Format::has_table))]
pub fn has_table(bytes: &[u8]) -> bool
    ensures { result ≡ has_table bytes.now }
{
    word(bytes, 0) == TABLE
}

// How many entries that table has, and 0 where the file has none.
#[tactic(auto, unfolding(crate::specs::Format::entry_count))]
pub fn entry_count(bytes: &[u8]) -> usize
    ensures { result ≡ entry_count bytes.now }
{
    if has_table(bytes) {
        return word(bytes, 1) as usize;
    }
    0
}

// The words of block 100.
#[tactic(auto, unfolding(crate::specs::Format::table_words))]
fn table_words(bytes: &[u8]) -> usize
    requires { entry_count bytes.now ≤ 300 }
    ensures { result ≡ table_words bytes.now }
{
    if has_table(bytes) {
        return TABLE_HEAD + entry_count(bytes);
    }
    0
}

// Whether block 102 stands after it.
#[tactic(auto, unfolding(crate::specs::Format::lent_in_bytes))]
pub fn lent_in_bytes(bytes: &[u8]) -> bool
    requires { entry_count bytes.now ≤ 300 }
    ensures { result ≡ lent_in_bytes bytes.now }
{
    word(bytes, table_words(bytes)) == BYTE_TAGS
}

// The words of both blocks.
#[tactic(auto, unfolding(crate::specs::Format::block_words, crate::specs::Format::table_words))]
pub fn block_words(bytes: &[u8]) -> usize
    requires { entry_count bytes.now ≤ 300 }
    ensures { result ≡ block_words bytes.now }
{
    let words = table_words(bytes);
    if lent_in_bytes(bytes) {
        return words + 1;
    }
    words
}

#[tactic(auto, unfolding(crate::specs::Format::head_of))]
pub fn read_head(bytes: &[u8]) -> Head
    ensures { result ≡ head_of bytes.now }
{
    Head {
        call: word(bytes, 0),
        tags: word(bytes, 1) as usize,
        values: word(bytes, 2) as usize,
        n: word(bytes, 3) as usize,
        place: word(bytes, 4),
        polarity: word(bytes, 5),
        lent: word(bytes, 6) as usize,
        ends: word(bytes, 7) as usize,
    }
}

// How many places follow the values: the conclusion of a call 0.
#[tactic(auto, unfolding(crate::specs::Format::conclusion_count))]
pub fn conclusion_count(head: Head) -> usize
    ensures { result ≡ conclusion_count head }
{
    if head.call == Call::Check as u32 {
        return head.lent;
    }
    0
}

// The length of the array that X is of: calls 2 and 4 are lent one.
#[tactic(auto, unfolding(crate::specs::Format::lent_count))]
pub fn lent_count(head: Head) -> usize
    ensures { result ≡ lent_count head }
{
    if head.call == Call::FreeVars as u32 || head.call == Call::ClauseList as u32 {
        return head.lent;
    }
    0
}

// The length of the array of clause ends.
#[tactic(auto, unfolding(crate::specs::Format::ends_count))]
pub fn ends_count(head: Head) -> usize
    ensures { result ≡ ends_count head }
{
    if head.call == Call::ClauseList as u32 {
        return head.ends;
    }
    0
}

// Whether the arrays have at most 9,000 elements each, and those that stand in the file fill it to its end.
#[tactic(auto, unfolding(crate::specs::Format::is_whole))]
pub fn is_whole(bytes: &[u8], head: Head) -> bool
    ensures { result ≡ is_whole bytes.now head }
{
    let places = conclusion_count(head);
    head.tags <= MOST
        && head.values <= MOST
        && lent_count(head) <= MOST
        && ends_count(head) <= MOST
        && places <= MOST
        && bytes.len() == 4 * (HEAD + head.tags + head.values + places)
}
