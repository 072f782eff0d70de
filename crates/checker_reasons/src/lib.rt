// The reasons that the reading of one invariant gives, by what it kept; and a sorted list of reasons with them.
#![tactic(auto)]

ghost use Rattle.std.specs.Prelude.{◌≡◌, ◌*◌, ◌≤◌, length};
ghost use Rattle.reasons.specs.Readable.{AllReadable};
ghost use Rattle.reasons.specs.Lists.{listed, insert_all, Grows};
ghost use Rattle.engine_fields.specs.Fields.{cap};
ghost use Rattle.checker_reasons.specs.Reasons.{list_of, renderings, about_m, if_m, temporal_m, unknown_m, incomplete_m};

use checker_response::Memory;
use engine_fields::{byte_at, capped, text_position, two_at};
use reasons::{Reason, insert_sorted};

// An invariant gives at most two.
#[derive(Clone, Copy)]
pub enum Told {
    Nothing,
    One(Reason),
    Two(Reason, Reason),
}

// A reason about the invariant at a position.
fn about(f: &[u8], at: u32, kind: u32) -> Reason
    ensures { result ≡ about_m f.now at kind }
{
    Reason {
        kind,
        first: text_position(f, two_at(f, at as usize + 1)),
        second: reasons::ABSENT,
        line: 0,
        column: 0,
    }
}

// The reason, if it came up.
fn told_if(b: bool, r: Reason) -> Told
    ensures { result ≡ if_m b r }
{
    if b {
        return Told::One(r);
    }
    Told::Nothing
}

// A response's: whether its goal was unknown at a deadline, and whether a predicate was unknown.
fn temporal(m: Memory, late: Reason, predicate: Reason) -> Told
    ensures { result ≡ temporal_m m late predicate }
{
    if m.unclear {
        if m.unknown {
            return Told::Two(late, predicate);
        }
        return Told::One(late);
    }
    told_if(m.unknown, predicate)
}

pub fn unknown_reasons(f: &[u8], at: usize, m: Memory) -> Told
    ensures { result ≡ unknown_m f.now (cap at) m }
{
    let p = capped(at);
    let kind = byte_at(f, p as usize);
    if kind == 0 {
        return told_if(m.unknown, about(f, p, reasons::STATE_PREDICATE));
    }
    if kind == 1 {
        return told_if(m.unknown, about(f, p, reasons::ACTION_GUARD));
    }
    if kind == 2 {
        return Told::Nothing;
    }
    let late = about(f, p, reasons::RESPONSE_AT_DEADLINE);
    temporal(m, late, about(f, p, reasons::TEMPORAL_PREDICATE))
}

pub fn incomplete_reasons(f: &[u8], at: usize, m: Memory) -> Told
    ensures { result ≡ incomplete_m f.now (cap at) m }
{
    told_if(m.beyond, about(f, capped(at), reasons::BEYOND_HORIZON))
}

// The reasons among the first n of an area, which ascend as rendered; the answer is how many there are then.
pub fn insert_told(f: &[u8], a: &mut [u32], n: usize, t: Told) -> usize
    requires { length (insert_all (renderings f.now t) (listed f.now n a.old)) * 5 ≤ length a.old }
    ensures { Grows f.now (AllReadable f.now (list_of t))
        (insert_all (renderings f.now t) (listed f.now n a.old)) n a.old result a.new }
{
    match t {
        Told::Nothing => n,
        Told::One(r) => insert_sorted(f, a, n, r),
        Told::Two(r, s) => {
            let k = insert_sorted(f, a, n, r);
            insert_sorted(f, a, k, s)
        }
    }
}
