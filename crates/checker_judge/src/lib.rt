// The judging of one invariant over the records of a simulation, on places in the model file.
// An invariant: 0 kind, 1 identifier; from 3 on what its kind holds. Kinds: 0 never, 1 guard, 2 transition, 3 response.
// A record of kind 2 is an action, one of kind 9 the horizon.
#![tactic(auto)]

ghost use Rattle.std.specs.Prelude.{◌≡◌, ◌*◌, ◌+◌, ◌≤◌, length};
ghost use Rattle.engine_evaluate.specs.Evaluate.{size_m};
ghost use Rattle.engine_state.specs.Machine.{later};
ghost use Rattle.checker_judge.specs.Judging.{
  nothing_m,
  unsure_m,
  entity_m,
  value_m,
  set_m,
  never_m,
  writes_m,
  about_m,
  guarded_m,
  guard_m,
  passes_m,
  transition_m,
  seen_m,
  read_m,
  unfailed_m,
  Judges,
};
ghost use Rattle.checker_judge.specs.Names.{with_m, predicate_m, list_m, names_m, touches_m, pending_m, Quiet, Skips};
ghost use Rattle.checker_judge.specs.Turns.{Turned};

use checker_response::{
    Failure, Memory, Seen, Shown, both, either, failed, fails_if, is_no, is_unknown, is_yes,
    responded,
};
use engine_evaluate::{Truth, evaluate, evaluate_all};
use engine_fields::{byte_at, four_at, two_at};
use engine_state::{Cells, after};
use layout::Table;
use records::{Record, Source, Write};

// The failing record: its index, its second, its source; without a failure these are 0 and none.
#[derive(Clone, Copy)]
pub struct Reading {
    pub failure: Option<Failure>,
    pub index: usize,
    pub second: u32,
    pub source: Option<Source>,
    pub memory: Memory,
}

// A predicate is unknown at this record.
fn unsure(b: bool, m: Memory) -> Memory
    ensures { result ≡ unsure_m b m }
{
    let mut r = m;
    r.unknown = either(m.unknown, b);
    r
}

// ---- the values after a change

// The entity that a change writes, or 32.
#[tactic(auto, unfolding(crate::specs::Judging::entity_m))]
fn entity_in(x: &Table, change: Option<Write>) -> usize
    ensures { result ≡ entity_m x.now change }
{
    match change {
        None => 32,
        Some(w) => engine_fields::entity_of(x, w.entity),
    }
}

// The value that it writes, or 0.
#[tactic(auto, unfolding(crate::specs::Judging::value_m))]
fn value_in(change: Option<Write>) -> u32
    ensures { result ≡ value_m change }
{
    match change {
        None => 0,
        Some(w) => w.after,
    }
}

// An entity's value changes; with 32, none does.
fn put(values: &mut [u32; 32], e: usize, value: u32)
    ensures { values.new ≡ set_m values.old e value }
{
    if e < 32 {
        values[e] = value;
    }
}

// ---- never, guard, transition

fn read_never(f: &[u8], x: &Table, at: u32, present: &[u32; 32], m: Memory) -> Shown
    ensures { result ≡ never_m f.now x.now at present.now m }
{
    let judged = evaluate_all(f, x, present, 0, after(at, 3));
    let t = judged.truth;
    let failure = fails_if(is_yes(t), Some(Failure::ProhibitedState));
    let memory = unsure(is_unknown(t), m);
    Shown { failure, memory }
}

// Whether a change sets the guard's entity to its value.
#[tactic(auto, unfolding(crate::specs::Judging::writes_m))]
fn writes(f: &[u8], at: u32, change: Option<Write>) -> bool
    ensures { result ≡ writes_m f.now at change }
{
    match change {
        None => false,
        Some(w) => both(
            w.entity == two_at(f, at as usize + 3),
            w.after == two_at(f, at as usize + 5),
        ),
    }
}

// Whether a record is an action that the guard is about.
fn is_about(f: &[u8], at: u32, r: Record) -> bool
    ensures { result ≡ about_m f.now at r }
{
    let change = r.change;
    if r.kind == 2 {
        return writes(f, at, change);
    }
    false
}

fn guarded(t: Truth, m: Memory) -> Shown
    ensures { result ≡ guarded_m t m }
{
    let failure = fails_if(is_no(t), Some(Failure::GuardViolated));
    let memory = unsure(is_unknown(t), m);
    Shown { failure, memory }
}

// A guard reads the values before the record.
fn read_guard(f: &[u8], x: &Table, at: u32, before: &[u32; 32], r: Record, m: Memory) -> Shown
    ensures { result ≡ guard_m f.now x.now at before.now r m }
{
    if is_about(f, at, r) {
        let judged = evaluate_all(f, x, before, 0, after(at, 7));
        let t = judged.truth;
        return guarded(t, m);
    }
    Shown {
        failure: None,
        memory: m,
    }
}

// Whether a change takes the transition's entity from its first value to its second.
#[tactic(auto, unfolding(crate::specs::Judging::passes_m))]
fn passes(f: &[u8], at: u32, change: Option<Write>) -> bool
    ensures { result ≡ passes_m f.now at change }
{
    match change {
        None => false,
        Some(w) => both(
            both(
                w.entity == two_at(f, at as usize + 3),
                w.before == two_at(f, at as usize + 5),
            ),
            w.after == two_at(f, at as usize + 7),
        ),
    }
}

fn read_transition(f: &[u8], at: u32, r: Record, m: Memory) -> Shown
    ensures { result ≡ transition_m f.now at r m }
{
    let change = r.change;
    let failure = fails_if(passes(f, at, change), Some(Failure::ForbiddenTransition));
    Shown { failure, memory: m }
}

// ---- what a response reads

// The position after the predicate at a position.
fn after_predicate(f: &[u8], at: u32) -> u32
    ensures { result ≡ later at (size_m f.now at) }
{
    after(at, engine_evaluate::predicate_size(f, at))
}

// The goal is read before the record and after it, the cause after it.
fn seen_at(f: &[u8], x: &Table, at: u32, before: &[u32; 32], present: &[u32; 32]) -> Seen
    ensures { result ≡ seen_m f.now x.now at before.now present.now }
{
    let p = after(at, 3);
    let q = after_predicate(f, p);
    let cause = evaluate(f, x, present, 0, p);
    let goal = evaluate(f, x, present, 0, q);
    let earlier = evaluate(f, x, before, 0, q);
    let within = four_at(f, after_predicate(f, q) as usize);
    Seen {
        cause,
        goal,
        earlier,
        within,
    }
}

// ---- any invariant

// What a record shows, with the values before it and after it.
fn read(
    f: &[u8],
    x: &Table,
    at: u32,
    before: &[u32; 32],
    present: &[u32; 32],
    r: Record,
    m: Memory,
) -> Shown
    ensures { result ≡ read_m f.now x.now at before.now present.now r m }
{
    let kind = byte_at(f, at as usize);
    if kind == 0 {
        return read_never(f, x, at, present, m);
    }
    if kind == 1 {
        return read_guard(f, x, at, before, r, m);
    }
    if kind == 2 {
        return read_transition(f, at, r, m);
    }
    responded(seen_at(f, x, at, before, present), r.second, r.kind == 9, m)
}

// ---- the entities that an invariant names

// An entity's cell is the one at its place's remainder.
fn name(id: u32, named: &mut [bool; 64])
    ensures { named.new ≡ with_m id named.old }
{
    named[(id % 64) as usize] = true;
}

// The entity of a state. A window, which no accepted invariant has, is taken for one: naming more only reads more.
fn name_predicate(f: &[u8], at: u32, named: &mut [bool; 64])
    ensures { named.new ≡ predicate_m f.now at named.old }
{
    if byte_at(f, at as usize) == 1 {
        return;
    }
    name(two_at(f, at as usize + 1), named);
}

fn name_list(f: &[u8], at: u32, named: &mut [bool; 64])
    ensures { named.new ≡ list_m f.now at named.old }
{
    let count = two_at(f, at as usize);
    let mut p = after(at, 2);
    for _ in 0..count {
        name_predicate(f, p, named);
        p = after_predicate(f, p);
    }
}

fn name_all(f: &[u8], at: u32, named: &mut [bool; 64])
    ensures { named.new ≡ names_m f.now at named.old }
{
    let kind = byte_at(f, at as usize);
    if kind == 0 {
        name_list(f, after(at, 3), named);
        return;
    }
    if kind == 1 {
        name(two_at(f, at as usize + 3), named);
        name_list(f, after(at, 7), named);
        return;
    }
    if kind == 2 {
        name(two_at(f, at as usize + 3), named);
        return;
    }
    let p = after(at, 3);
    name_predicate(f, p, named);
    name_predicate(f, after_predicate(f, p), named);
}

// ---- all records

#[tactic(auto, unfolding(crate::specs::Names::touches_m, crate::specs::Names::has_m))]
fn touches(named: &[bool; 64], change: Option<Write>) -> bool
    ensures { result ≡ touches_m named.now change }
{
    match change {
        None => false,
        Some(w) => named[(w.entity % 64) as usize],
    }
}

#[tactic(auto, unfolding(crate::specs::Names::pending_m))]
fn pending(wait: Option<u64>) -> bool
    ensures { result ≡ pending_m wait }
{
    wait.is_some()
}

// Whether there is a record at k, of n, and it writes no named entity.
fn is_quiet(named: &[bool; 64], a: &[u32], n: usize, k: usize) -> bool
    requires { n * 13 ≤ length a.now }
    ensures { Quiet named.now a.now n k result }
{
    if n <= k {
        return false;
    }
    !touches(named, records::change_at(a, k))
}

// The next record to be read, from k on: those before it can show nothing new.
fn next_to_read(named: &[bool; 64], wait: Option<u64>, a: &[u32], n: usize, k: usize) -> usize
    requires { n * 13 ≤ length a.now }
    ensures { Skips named.now wait a.now n k result }
{
    if k == 0 {
        return 0;
    }
    if pending(wait) {
        return k;
    }
    let mut j = k;
    while is_quiet(named, a, n, j) {
        j += 1;
    }
    j
}

// The record at k. Both arrays hold the values before it, and then the values after it; of entities that aren't named they
// may hold older ones.
fn next_turn(
    f: &[u8],
    x: &Table,
    at: u32,
    before: &mut [u32; 32],
    present: &mut [u32; 32],
    m: Memory,
    a: &[u32],
    k: usize,
) -> Reading
    requires { (k * 13 + 13 ≤ length a.now) × (before.old ≡ present.old) }
    ensures same { before.new ≡ present.new }
    ensures turned { Turned f.now x.now at before.old m a.now k result before.new }
{
    let r = records::get_record(a, k);
    let change = r.change;
    let source = r.source;
    let e = entity_in(x, change);
    let value = value_in(change);
    put(present, e, value);
    let s = read(f, x, at, before, present, r, m);
    put(before, e, value);
    Reading {
        failure: s.failure,
        index: k,
        second: r.second,
        source,
        memory: s.memory,
    }
}

fn nothing_yet() -> Memory
    ensures { result ≡ nothing_m }
{
    Memory {
        wait: None,
        held: false,
        unknown: false,
        unclear: false,
        beyond: false,
    }
}

fn unfailed(m: Memory) -> Reading
    ensures { result ≡ unfailed_m m }
{
    Reading {
        failure: None,
        index: 0,
        second: 0,
        source: None,
        memory: m,
    }
}

// The invariant at a position over the first n records of the area, from the values that the simulation started from:
// the first failing record, or none.
pub fn judge(f: &[u8], x: &Table, at: usize, cells: Cells, a: &[u32], n: usize) -> Reading
    requires { n * 13 ≤ length a.now }
    ensures { Judges f.now x.now at cells a.now n result }
{
    let p = engine_fields::capped(at);
    let mut named = [false; 64];
    name_all(f, p, &mut named);
    let mut before = cells.values;
    let mut present = cells.values;
    let mut m = nothing_yet();
    let mut k: usize = 0;
    let reading = loop {
        let wait = m.wait;
        k = next_to_read(&named, wait, a, n, k);
        if n <= k {
            break unfailed(m);
        }
        let shown = next_turn(f, x, p, &mut before, &mut present, m, a, k);
        let failure = shown.failure;
        if failed(failure) {
            break shown;
        }
        m = shown.memory;
        k += 1;
    };
    reading
}
