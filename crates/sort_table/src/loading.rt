// S-2: the table of sort rules in use. Which entries may be loaded, and the call that loads them.
ghost use Rattle.std.specs.Prelude.{◌≡◌, not, ◌&&◌, ◌||◌, length, ltb, eqb};
ghost use Rattle.answers.specs.Refusal.{answer_of_check};
ghost use Rattle.sort_table.specs.TableAnswer.{entry_count, first_entry, forbids, is_connective, loses_bool, table_answer, Loaded};

use crate::table::built_in;
use answers::Answer;
use answers::refusal::Refusal;
use cells::run::copy_cells;

// "one of 135 entries, one rule number each"
pub const ENTRIES: usize = 135;

// The rule of operators whose sort none of 0 to 6 describes.
const SPECIAL: u32 = 7;

// Entries by operator.
const NOT: usize = 2;

const OR: usize = 5;

const EQUALS: usize = 7;

// Whether a rule number is allowed where the built-in table has the rule `own`.
fn is_allowed(rule: u32, own: u32) -> bool
    ensures { result ≡ (ltb rule 7 || (eqb rule 7 && eqb own 7)) }
{
    if rule < SPECIAL {
        return true;
    }
    if rule != SPECIAL {
        return false;
    }
    own == SPECIAL
}

// The first entry whose rule number is not allowed.
fn first_forbidden(entries: &[u32]) -> Option<usize>
    requires { length entries.now ≡ entry_count }
    ensures { result ≡ first_entry (forbids entries.now) entry_count 0 }
{
    let own = built_in();
    (0..ENTRIES).find(|i| !is_allowed(entries[*i], own[*i]))
}

// Whether a connective's entry (Not to Or, Equals) has another rule than Bool. Normal forms state Bool in what they build, which would fail
// 16 at the next call; Xor, 6, is never built.
fn loses_bool(i: usize, rule: u32) -> bool
    ensures { result ≡ (is_connective i && not (eqb rule 0)) }
{
    if rule == 0 {
        return false;
    }
    if i < NOT {
        return false;
    }
    if i <= OR {
        return true;
    }
    i == EQUALS
}

// The first entry of a connective that isn't Bool.
fn first_not_bool(entries: &[u32]) -> Option<usize>
    requires { length entries.now ≡ entry_count }
    ensures { result ≡ first_entry (loses_bool entries.now) entry_count 0 }
{
    (0..ENTRIES).find(|i| loses_bool(*i, entries[*i]))
}

// Whether these entries load, or why not.
pub fn check_table(entries: &[u32]) -> Result<(), Refusal>
    ensures { answer_of_check result ≡ table_answer entries.now }
{
    if entries.len() != ENTRIES {
        return Err(Refusal::BadTable(ENTRIES as u32));
    }
    if let Some(i) = first_forbidden(entries) {
        return Err(Refusal::BadTable(i as u32));
    }
    if let Some(i) = first_not_bool(entries) {
        return Err(Refusal::NotBool(i as u32));
    }
    Ok(())
}

// Replaces the table in use by these entries if they load.
pub fn load(entries: &[u32], table: &mut [u32; ENTRIES]) -> Answer
    ensures { Loaded entries.now table.old result table.new }
{
    let checked = check_table(entries);
    if checked.is_ok() {
        copy_cells(entries, table);
    }
    Answer::from(checked)
}
