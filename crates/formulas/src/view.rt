// How a term is read: as a connective, a quantifier, or as opaque.
ghost use Rattle.std.specs.Prelude.{◌≡◌};
ghost use Rattle.formulas.specs.Formula.{all_before, equality, connective, quantifier, view_of};
ghost use Rattle.formulas.specs.Built.{normal_view};

use crate::kinds::{ConnectiveKind, QuantifierKind};
use pool::run::cell;
use pool::tags::{AND, EQUALS, EXISTS, FORALL, IMPLIES, ITE, NOT, OR, TRUE};
use pool::{Pool, TermPlace};

// A term of a formula. Its operands stand before it.
#[derive(Clone, Copy)]
pub enum View {
    Opaque,
    Not(TermPlace),
    AndOr(ConnectiveKind),
    Implies(TermPlace, TermPlace),
    Ite(TermPlace, TermPlace, TermPlace),
    Iff(TermPlace, TermPlace),
    Quantifier(QuantifierKind, TermPlace),
}

// A term in negation normal form, as the taken-out form and the clauses read it.
#[derive(Clone, Copy)]
pub enum NormalView {
    Literal,
    Connective(ConnectiveKind),
    Forall(TermPlace),
}

// Whether every operand of the run stands before t.
fn all_before(t: TermPlace, os: &[u32]) -> bool
    ensures { result ≡ all_before t.0 os.now }
{
    os.iter().all(|o| *o < t.0)
}

// The `=` of two operands whose left has sort Bool.
fn equality(pool: &Pool<'_>, os: &[u32]) -> View
    ensures { result ≡ equality pool.now.values.now os.now }
{
    if os.len() != 2 {
        return View::Opaque;
    }
    let left = TermPlace(os[0]);
    let sort = pool.sort_of(left);
    if sort.0 != 0 {
        return View::Opaque;
    }
    View::Iff(left, TermPlace(os[1]))
}

// An operator's term, by its tag and its operands.
fn connective(pool: &Pool<'_>, tag: u8, os: &[u32]) -> View
    ensures { result ≡ connective pool.now.values.now tag os.now }
{
    if tag == AND {
        return View::AndOr(ConnectiveKind::And);
    }
    if tag == OR {
        return View::AndOr(ConnectiveKind::Or);
    }
    if tag == EQUALS {
        return equality(pool, os);
    }
    if tag == NOT {
        if os.len() != 1 {
            return View::Opaque;
        }
        return View::Not(TermPlace(os[0]));
    }
    if tag == IMPLIES {
        if os.len() != 2 {
            return View::Opaque;
        }
        return View::Implies(TermPlace(os[0]), TermPlace(os[1]));
    }
    if tag == ITE {
        if os.len() != 3 {
            return View::Opaque;
        }
        return View::Ite(TermPlace(os[0]), TermPlace(os[1]), TermPlace(os[2]));
    }
    View::Opaque
}

// A quantifier's term, by its tag and its body.
fn quantifier(tag: u8, body: TermPlace) -> View
    ensures { result ≡ quantifier tag body.0 }
{
    match tag {
        FORALL => View::Quantifier(QuantifierKind::Forall, body),
        EXISTS => View::Quantifier(QuantifierKind::Exists, body),
        _ => View::Opaque,
    }
}

// How the term at t is read.
pub fn view_of(pool: &Pool<'_>, t: TermPlace) -> View
    ensures { result ≡ view_of pool.now.tags.now pool.now.values.now t.0 }
{
    let at = t.0 as usize;
    let tag = pool.tag_at(at);
    let run = pool.operands(t);
    if tag < TRUE {
        let body = TermPlace(cell(run, 0));
        if t.0 <= body.0 {
            return View::Opaque;
        }
        return quantifier(tag, body);
    }
    if !all_before(t, run) {
        return View::Opaque;
    }
    connective(pool, tag, run)
}

// How the term in normal form at x is read.
pub fn normal_view(pool: &Pool<'_>, x: TermPlace) -> NormalView
    ensures { result ≡ normal_view pool.now.tags.now pool.now.values.now x.0 }
{
    let at = x.0 as usize;
    let tag = pool.tag_at(at);
    let run = pool.operands(x);
    if tag == FORALL {
        let body = TermPlace(cell(run, 0));
        if x.0 <= body.0 {
            return NormalView::Literal;
        }
        return NormalView::Forall(body);
    }
    if !all_before(x, run) {
        return NormalView::Literal;
    }
    if tag == AND {
        return NormalView::Connective(ConnectiveKind::And);
    }
    if tag == OR {
        return NormalView::Connective(ConnectiveKind::Or);
    }
    NormalView::Literal
}
