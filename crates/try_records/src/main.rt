// The comparison of joined lists, a line for each case.
#![tactic(auto)]

use joined_records::{Binding, same_joined};
use std::io;
use std::io::Write;

const X: Binding = Binding { name: 1, sort: 0 };

const Y: Binding = Binding { name: 2, sort: 0 };

// The name of X under another sort.
const Z: Binding = Binding { name: 1, sort: 3 };

fn case<W: Write>(
    name: &str,
    outer: &[Binding],
    inner: &[Binding],
    right: &[Binding],
    out: &mut W,
) -> io::Result<()> {
    let answer = if same_joined(outer, inner, right) {
        "equal"
    } else {
        "not equal"
    };
    writeln!(out, "{name}: {answer}")
}

// Lists that meet in one pair, and lists that do not.
fn meeting_lists<W: Write>(out: &mut W) -> io::Result<()> {
    case("x with y x, right x y x", &[X], &[Y, X], &[X, Y, X], out)?;
    case("x with y x, right x y", &[X], &[Y, X], &[X, Y], out)?;
    case("x with x, right x", &[X], &[X], &[X], out)?;
    case("x with x, right x x", &[X], &[X], &[X, X], out)
}

fn empty_lists<W: Write>(out: &mut W) -> io::Result<()> {
    case("none with none, right none", &[], &[], &[], out)?;
    case("none with none, right x", &[], &[], &[X], out)?;
    case("none with x, right x", &[], &[X], &[X], out)?;
    case("x y with none, right x y", &[X, Y], &[], &[X, Y], out)?;
    case("x with none, right none", &[X], &[], &[], out)
}

fn two_sorts<W: Write>(out: &mut W) -> io::Result<()> {
    case("x with z, right x z", &[X], &[Z], &[X, Z], out)?;
    case("x with z, right x", &[X], &[Z], &[X], out)
}

// Equal pairs within a list, and right lists in another order or of another length.
fn right_lists<W: Write>(out: &mut W) -> io::Result<()> {
    case("x x with x y, right x y", &[X, X], &[X, Y], &[X, Y], out)?;
    case("x with y, right y x", &[X], &[Y], &[Y, X], out)?;
    case("x with y, right x", &[X], &[Y], &[X], out)?;
    case("x with y, right x y x", &[X], &[Y], &[X, Y, X], out)?;
    case(
        "x y with x y, right x y x y",
        &[X, Y],
        &[X, Y],
        &[X, Y, X, Y],
        out,
    )
}

fn main(rt: HostRuntime) -> io::Result<()> {
    let mut out = rt.stdout();
    meeting_lists(&mut out)?;
    empty_lists(&mut out)?;
    two_sorts(&mut out)?;
    right_lists(&mut out)
}
