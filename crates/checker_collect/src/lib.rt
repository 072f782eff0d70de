// The verdict on the records of a simulation: each invariant judged, its violation and its reasons gathered.
#![tactic(auto)]

ghost use Rattle.std.specs.Prelude.{◌≡◌, ◌+◌, ◌*◌, ◌≤◌, ◌<◌, length};
ghost use Rattle.areas.specs.Areas.{written};
ghost use Rattle.checker_collect.specs.Collect.{
  failure_number,
  failure_deadline,
  source_m,
  numbers_m,
  Pushed,
  Gathers,
  GathersAll,
};

use checker_judge::Reading;
use checker_response::Failure;
use engine_fields::two_at;
use engine_state::Cells;
use layout::{Positions, Table};
use records::Source;

// ---- violations, eight numbers each

#[derive(Clone, Copy)]
pub struct Numbers {
    pub list: [u64; 8],
}

pub fn failure_number(e: Option<Failure>) -> u64
    ensures { result ≡ failure_number e }
{
    match e {
        None => 0,
        Some(Failure::ProhibitedState) => 1,
        Some(Failure::GuardViolated) => 2,
        Some(Failure::ForbiddenTransition) => 3,
        Some(Failure::DeadlineMissed(_)) => 4,
    }
}

fn failure_deadline(e: Option<Failure>) -> u64
    ensures { result ≡ failure_deadline e }
{
    match e {
        Some(Failure::DeadlineMissed(d)) => d,
        _ => 0,
    }
}

// 1, line and column; or zeros.
fn source_part(s: Option<Source>, j: usize) -> u64
    ensures { result ≡ source_m s j }
{
    match s {
        None => 0,
        Some(place) => match j {
            0 => 1,
            1 => u64::from(place.line),
            _ => u64::from(place.column),
        },
    }
}

// The place of the invariant's identifier, the second, the record's index, the failure's number and deadline, the source.
fn numbers_of(id: u32, r: Reading) -> Numbers
    ensures { result.list ≡ numbers_m id r }
{
    let failure = r.failure;
    let source = r.source;
    let number = failure_number(failure);
    let deadline = failure_deadline(failure);
    let some = source_part(source, 0);
    let line = source_part(source, 1);
    let column = source_part(source, 2);
    let list = [
        id as u64,
        r.second as u64,
        r.index as u64,
        number,
        deadline,
        some,
        line,
        column,
    ];
    Numbers { list }
}

fn put(v: &mut [u64], at: usize, w: &[u64])
    requires { at + length w.now ≤ length v.old }
    ensures { v.new ≡ written v.old at w.now }
{
    v[at..at + w.len()].copy_from_slice(w);
}

// A violation more, if the reading has a failing record; the answer is how many there are then.
fn push_violation(v: &mut [u64], n: usize, id: u32, r: Reading) -> usize
    requires { n * 8 + 8 ≤ length v.old }
    ensures { Pushed v.old n id r v.new result }
{
    let failure = r.failure;
    if checker_response::failed(failure) {
        let w = numbers_of(id, r);
        let list = w.list;
        put(v, n * 8, &list);
        return n + 1;
    }
    n
}

// ---- the invariants, one after the other

// How many violations, unknown and incomplete reasons there are.
#[derive(Clone, Copy)]
pub struct Counts {
    pub violations: usize,
    pub unknown: usize,
    pub incomplete: usize,
}

// The invariant at a position: its violation goes to `v`, its reasons to `u` and `w`, sorted as rendered.
fn judge_one(
    f: &[u8],
    x: &Table,
    at: usize,
    cells: Cells,
    a: &[u32],
    n: usize,
    v: &mut [u64],
    u: &mut [u32],
    w: &mut [u32],
    s: Counts,
) -> Counts
    requires { (n * 13 ≤ length a.now) × ((s.violations * 8 + 8 ≤ length v.old)
        × ((s.unknown * 5 + 10 ≤ length u.old) × (s.incomplete * 5 + 5 ≤ length w.old))) }
    ensures { Gathers f.now x.now at cells a.now n s result v.old v.new u.old u.new w.old w.new }
{
    let r = checker_judge::judge(f, x, at, cells, a, n);
    let memory = r.memory;
    let id = two_at(f, engine_fields::capped(at) as usize + 1);
    let violations = push_violation(v, s.violations, id, r);
    let doubt = checker_reasons::unknown_reasons(f, at, memory);
    let unknown = checker_reasons::insert_told(f, u, s.unknown, doubt);
    let lack = checker_reasons::incomplete_reasons(f, at, memory);
    let incomplete = checker_reasons::insert_told(f, w, s.incomplete, lack);
    Counts {
        violations,
        unknown,
        incomplete,
    }
}

// So many invariants, at most 32, at their positions.
pub fn judge_all(
    f: &[u8],
    x: &Table,
    starts: &Positions,
    count: u32,
    cells: Cells,
    a: &[u32],
    n: usize,
    v: &mut [u64],
    u: &mut [u32],
    w: &mut [u32],
    s: Counts,
) -> Counts
    requires { (n * 13 ≤ length a.now) × ((s.violations * 8 + 256 ≤ length v.old)
        × ((s.unknown * 5 + 320 ≤ length u.old) × (s.incomplete * 5 + 160 ≤ length w.old))) }
    ensures { GathersAll f.now x.now starts.now count cells a.now n s result v.old v.new u.old u.new w.old
        w.new }
{
    let many = bounds::at_most(count, 32);
    let mut t = s;
    for k in 0..many {
        t = judge_one(f, x, starts[k], cells, a, n, v, u, w, t);
    }
    t
}
