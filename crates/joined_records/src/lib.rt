// The list comparison of `qnt_join` over lent records of name and sort.
#![tactic(auto)]

ghost use Rattle.std.specs.Prelude.{◌≡◌, get_or, length};
ghost use Rattle.bindings.specs.Binding.{same_all};
ghost use Rattle.quantifier_rules.specs.QntJoin.{joined};
ghost use Rattle.joined_records.specs.Records.{no_binding, bindings_in, is_repeat, next, follow};

// A quantifier's variable: its name and its sort.
#[derive(Clone, Copy, PartialEq, Eq)]
pub struct Binding {
    pub name: u32,
    pub sort: u32,
}

// How far some pairs and the right list agree: the last of the pairs, and how many pairs of the right list they passed.
#[derive(Clone, Copy)]
struct Along {
    last: Binding,
    at: usize,
}

// Whether a pair repeats the one before it.
fn is_repeat(s: Along, a: Binding) -> bool
    ensures { result ≡ is_repeat s a }
{
    s.at != 0 && s.last == a
}

// One pair more: it repeats the one before, or it is the right list's pair at the place reached. None where the lists differ.
fn next(s: Along, a: Binding, right: &[Binding]) -> Option<Along>
    ensures { result ≡ next s a (get_or right.now s.at no_binding) (length right.now) }
{
    if is_repeat(s, a) {
        return Some(s);
    }
    if a != *right.get(s.at)? {
        return None;
    }
    Some(Along {
        last: a,
        at: s.at + 1,
    })
}

// The pairs of a list, one after the other.
fn follow(list: &[Binding], right: &[Binding], mut s: Along) -> Option<Along>
    ensures { result ≡ follow list.now right.now s }
{
    for pair in list {
        s = next(s, *pair, right)?;
    }
    Some(s)
}

// Whether the outer list and then the inner, adjacent equal pairs dropped, equal the right list in order.
pub fn same_joined(outer: &[Binding], inner: &[Binding], right: &[Binding]) -> bool
    ensures { result ≡ same_all (joined (bindings_in outer.now) (bindings_in inner.now)) (bindings_in right.now) }
{
    let last = Binding { name: 0, sort: 0 };
    let start = Along { last, at: 0 };
    let Some(after_outer) = follow(outer, right, start) else {
        return false;
    };
    let Some(end) = follow(inner, right, after_outer) else {
        return false;
    };
    right.len() <= end.at
}
