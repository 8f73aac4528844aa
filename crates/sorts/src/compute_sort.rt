// Check 16: the sort that `compute_sort` gives a term, and whether the term states it.
ghost use Rattle.std.specs.Prelude.{◌≡◌, not, ◌&&◌, ◌+◌, ◌-◌, ◌≤◌, ◌<◌, get_or};
ghost use Rattle.headers.specs.WellFormed.{is_term_tag};
ghost use Rattle.sorts.specs.SortRule.{is_sort, special_of, first_sort, by_rule, choice, states_sort, first_wrong_sort};

use crate::list_sorts::{ListRule, by_list};
use crate::plain::{is_plain, is_single};
use crate::special::Special;
use crate::special_sorts::by_special;
use cells::pool::Pool;
use cells::tags::{
    APPLICATION, BINDERS_END, BIT_VEC, BIT_VECTOR, BOOL, CHOICE, FORALL, INTEGER, LAMBDA, LET,
    TRUE, VARIABLE,
};
use cells::{SortPlace, TermPlace};

// The special rule of an operator code. 01: "special sort rules are decided by operator code".
fn special_of(op: u8) -> Special
    ensures { result ≡ special_of op }
{
    match op {
        10..=12 => Special::Arithmetic, // Add, Sub, Mult
        42 => Special::Select,
        79..=88 | 91..=94 | 96..=100 => Special::BitVectors, // BvNot to BvLShr, BvNAnd to BvXNor, BvSub to BvAShr
        90 => Special::Concat, // BvConcat
        95 => Special::OneBit, // BvComp
        110..=111 => Special::BitCount, // BvPBbTerm, BvBbTerm
        112 => Special::BvConst,
        115 => Special::RareList,
        123 => Special::Singleton, // SetSingleton
        127 => Special::Insert, // SetInsert
        129 => Special::TupleOf, // Tuple
        130 => Special::TupleUnit,
        131 => Special::Transpose, // RelTranspose
        133 => Special::Join, // RelJoin
        134 => Special::Product, // RelProduct
        _ => Special::NoRule,
    }
}

// The first operand's sort.
fn first_sort(pool: &Pool<'_>, s: SortPlace, os: &[u32]) -> bool
    ensures { result ≡ is_sort pool.now.tags.now pool.now.values.now s.0 (first_sort pool.now.values.now os.now) }
{
    if os.len() == 0 {
        return false;
    }
    let sort = pool.sort_of(TermPlace(os[0]));
    s == sort
}

// The tag of the sort that rules 0 to 4 give.
fn plain_tag(rule: u32) -> u8
    requires { rule < 5 }
    ensures { result ≡ rule + 1 }
{
    rule as u8 + 1
}

// Whether the sort at s is the one that a rule of the table gives the operands of an operator. Rules 0 to 4 are the sorts with tags
// 1 to 5, 5 is the first operand's, 6 the second's, and above that the operator's own.
fn by_rule(pool: &Pool<'_>, s: SortPlace, rule: u32, op: u8, os: &[u32]) -> bool
    ensures { result ≡ is_sort pool.now.tags.now pool.now.values.now s.0
        (by_rule pool.now.tags.now pool.now.values.now rule op os.now) }
{
    if rule < 5 {
        return is_plain(pool, s, plain_tag(rule));
    }
    if rule == 5 {
        return first_sort(pool, s, os);
    }
    if rule == 6 {
        if os.len() == 0 {
            return false;
        }
        return first_sort(pool, s, &os[1..]);
    }
    by_special(pool, s, special_of(op), os)
}

// The rule of an operator, and 7 past the end of the table.
fn rule_of(rules: &[u32], op: u8) -> u32
    ensures { result ≡ get_or rules.now op 7 }
{
    let at = op as usize;
    if at < rules.len() { rules[at] } else { 7 }
}

// choice: its first variable's sort. `os` is the binder's run: the body, and then the pairs.
fn choice(pool: &Pool<'_>, s: SortPlace, os: &[u32]) -> bool
    ensures { result ≡ is_sort pool.now.tags.now pool.now.values.now s.0 (choice os.now) }
{
    if os.len() < 3 {
        return false;
    }
    s.0 == os[2]
}

// How far the tag of a constant stands after its sort's.
const TO_CONSTANT: u8 = 14;

// How far a tag stands after another, and 0 before it.
fn after(tag: u8, first: u8) -> u8
    ensures { result ≡ tag - first }
{
    if tag < first { 0 } else { tag - first }
}

// Whether the term at t states the sort that `compute_sort` gives by this table of rules. A constant's tag is `TO_CONSTANT` above its
// sort's, a variable's sort is the one it states, a quantifier's is Bool, and a let's its body's.
pub fn states_sort(pool: &Pool<'_>, rules: &[u32], t: TermPlace) -> bool
    ensures { result ≡ states_sort pool.now.tags.now pool.now.values.now rules.now t.0 }
{
    let at = t.0 as usize;
    let tag = pool.tag_at(at);
    let s = pool.sort_of(TermPlace(t.0));
    if tag < BIT_VECTOR {
        return is_plain(pool, s, after(tag, TO_CONSTANT));
    }
    if tag < VARIABLE {
        return is_single(pool, s, BIT_VEC, pool.cell(at + 2));
    }
    if tag < APPLICATION {
        return true;
    }
    let os = pool.operands(t);
    if tag < FORALL {
        return by_list(pool, s, ListRule::Application, os);
    }
    if tag < CHOICE {
        return is_plain(pool, s, BOOL);
    }
    if tag < LAMBDA {
        return choice(pool, s, os);
    }
    if tag < LET {
        return by_list(pool, s, ListRule::Lambda, os);
    }
    if tag < BINDERS_END {
        return first_sort(pool, s, os);
    }
    let op = after(tag, TRUE);
    by_rule(pool, s, rule_of(rules, op), op, os)
}

// Whether the header at t is a term's with the wrong sort.
fn states_wrong(pool: &Pool<'_>, rules: &[u32], t: TermPlace) -> bool
    ensures { result ≡ (is_term_tag (get_or pool.now.tags.now t.0 0) && not (states_sort pool.now.tags.now pool.now.values.now rules.now t.0)) }
{
    let at = t.0 as usize;
    if pool.tag_at(at) < INTEGER {
        return false;
    }
    !states_sort(pool, rules, t)
}

// 01, "16 wrong sort (the first place)". A place is a u32, so the count must fit one.
pub fn first_wrong_sort(pool: &Pool<'_>, rules: &[u32], n: usize) -> Option<usize>
    requires { n ≤ 4294967295 }
    ensures { result ≡ first_wrong_sort pool.now.tags.now pool.now.values.now rules.now n }
{
    for p in pool.header_places(n) {
        if states_wrong(pool, rules, TermPlace(p as u32)) {
            return Some(p);
        }
    }
    None
}
