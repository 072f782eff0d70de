// The state of a simulation, and the primitive changes of the state and of its areas.
// Three arrays belong to the state and are lent to the functions that need them: by entity the values, as text places, and
// the versions, which count the writes; by automation the sequences, which count the runs that it has made.
#![tactic(auto)]

ghost use Rattle.layout.specs.Sizes.{simulation_reason_words};
ghost use Rattle.std.specs.Prelude.{◌≡◌, ◌+◌, ◌*◌, ◌≤◌, ◌<◌, length};
ghost use Rattle.reasons.specs.Readable.{Readable, HasText};
ghost use Rattle.engine_state.specs.Machine.{more, later, with_active};
ghost use Rattle.engine_state.specs.Changes.{
  add_m,
  log_m,
  add_run_m,
  uncertain_m,
  log_rule_m,
  log_action_m,
  log_plain_m,
  log_write_m,
  next_step_m,
};
ghost use Rattle.engine_state.specs.Steps.{Moves, Does, kept, told, still, by};

use queue::{Item, Work};
use reasons::Reason;
use records::{Record, Write};
use runs::{Run, Source};

// What the entities have at the start: values and versions.
#[derive(Clone, Copy)]
pub struct Cells {
    pub values: [u32; 32],
    pub versions: [u32; 32],
}

// The queue has `items` entries from the entry `queue_start` of its area on.
// `overflow` is 0, or the number of the first area that had no place for an entry: nothing goes in after that.
#[derive(Clone, Copy)]
pub struct State {
    pub now: u32,
    pub items: usize,
    pub queue_start: usize,
    pub records: usize,
    pub live_runs: usize,
    pub reasons: usize,
    pub runs_created: u32,
    pub overflow: u32,
}

// What a record says: its kind, and a number or a place.
#[derive(Clone, Copy)]
pub struct Told {
    pub kind: u32,
    pub detail: u32,
}

// A change of an entity from one value to another.
#[derive(Clone, Copy)]
pub struct Move {
    pub entity: u32,
    pub from: u32,
    pub to: u32,
}

// What is written, and by whom.
#[derive(Clone, Copy)]
pub struct Setting {
    pub entity: u32,
    pub value: u32,
    pub kind: u32,
    pub rule: Option<u32>,
    pub source: Option<records::Source>,
}

// One more, unless that is too many.
pub fn more_than(x: u32) -> u32
    ensures { result ≡ more x }
{
    if x < 4294967295 {
        return x + 1;
    }
    x
}

// The second after so many seconds, at most the last.
pub fn after(a: u32, b: u32) -> u32
    ensures { result ≡ later a b }
{
    if b <= 4294967295 - a {
        return a + b;
    }
    4294967295
}

// ---- the state

pub fn with_active(st: State, n: usize) -> State
    ensures { result ≡ with_active n st }
{
    let mut s = st;
    s.live_runs = n;
    s
}

// ---- the primitive changes

// An item more, unless an area is full.
pub fn add(q: &mut [u32], st: State, second: u32, work: Work) -> State
    requires { (st.queue_start + st.items) * 5 ≤ length q.old }
    ensures { Does (add_m second work) st result (by q) kept kept still }
{
    let mut s = st;
    if s.overflow != 0 {
        return s;
    }
    let n = s.items;
    let Some(first) = queue::insert(q, s.queue_start, n, Item { second, work }) else {
        s.overflow = 41;
        return s;
    };
    s.items = n + 1;
    s.queue_start = first;
    s
}

// A record more, unless an area is full.
pub fn log(
    a: &mut [u32],
    st: State,
    what: Told,
    rule: Option<u32>,
    source: Option<records::Source>,
    change: Option<Write>,
) -> State
    requires { st.records * 13 ≤ length a.old }
    ensures { Does (log_m what rule source change) st result kept (by a) kept still }
{
    let mut s = st;
    if s.overflow != 0 {
        return s;
    }
    let n = s.records;
    let x = Record {
        second: s.now,
        kind: what.kind,
        detail: what.detail,
        number: 0,
        rule,
        source,
        change,
    };
    if records::push_record(a, n, x) {
        s.records = n + 1;
        return s;
    }
    s.overflow = 42;
    s
}

// A run more of the i-th automation, unless an area is full.
pub fn add_run(r: &mut [u32], sequences: &mut [u32; 32], st: State, i: usize, run: Run) -> State
    requires { (st.live_runs * 28 ≤ length r.old) × (i < 32) }
    ensures { Moves (add_run_m i run) st result kept kept (by r) still kept kept (by sequences) }
{
    let mut s = st;
    if s.overflow != 0 {
        return s;
    }
    let n = s.live_runs;
    let made = more_than(s.runs_created);
    let sequence = more_than(sequences[i]);
    if runs::push_run(r, n, run) {
        s.live_runs = n + 1;
        s.runs_created = made;
        sequences[i] = sequence;
        return s;
    }
    s.overflow = 43;
    s
}

// A reason more, unless it is there already or there are 300.
pub fn uncertain(f: &[u8], u: &mut [u32], st: State, reason: Reason) -> State
    requires { (st.reasons * 5 ≤ length u.old) × ((simulation_reason_words ≤ length u.old)
        × (HasText f.now → Readable f.now reason)) }
    ensures { Does (uncertain_m f.now reason) st result kept kept kept (told f.now u.old u.new) }
{
    let mut s = st;
    let n = s.reasons;
    if layout::LAST_SIMULATION_REASON < n {
        return s;
    }
    s.reasons = reasons::push_if_absent(f, u, n, reason);
    s
}

// ---- records

// A record about an automation.
pub fn log_rule(a: &mut [u32], st: State, kind: u32, detail: u32, automation: u32) -> State
    requires { st.records * 13 ≤ length a.old }
    ensures { Does (log_rule_m kind detail automation) st result kept (by a) kept still }
{
    log(a, st, Told { kind, detail }, Some(automation), None, None)
}

// A record about an action of a run.
pub fn log_action(a: &mut [u32], st: State, kind: u32, detail: u32, s: Source, run: Run) -> State
    requires { st.records * 13 ≤ length a.old }
    ensures { Does (log_action_m kind detail s run) st result kept (by a) kept still }
{
    log(
        a,
        st,
        Told { kind, detail },
        Some(run.automation),
        Some(records::Source {
            line: s.line,
            column: s.column,
        }),
        None,
    )
}

// A record about no automation.
pub fn log_plain(a: &mut [u32], st: State, kind: u32) -> State
    requires { st.records * 13 ≤ length a.old }
    ensures { Does (log_plain_m kind) st result kept (by a) kept still }
{
    log(a, st, Told { kind, detail: 0 }, None, None, None)
}

// A record of a write.
pub fn log_write(a: &mut [u32], st: State, w: Setting, m: Move) -> State
    requires { st.records * 13 ≤ length a.old }
    ensures { Does (log_write_m w m) st result kept (by a) kept still }
{
    log(
        a,
        st,
        Told {
            kind: w.kind,
            detail: 0,
        },
        w.rule,
        w.source,
        Some(Write {
            entity: m.entity,
            before: m.from,
            after: m.to,
        }),
    )
}

// The run goes on at a second.
pub fn next_step(q: &mut [u32], st: State, run: Run, second: u32) -> State
    requires { (st.queue_start + st.items) * 5 ≤ length q.old }
    ensures { Does (next_step_m run second) st result (by q) kept kept still }
{
    add(
        q,
        st,
        second,
        Work::Resume {
            automation: run.automation,
            sequence: run.sequence,
        },
    )
}
