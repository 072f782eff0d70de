// What a run's next action does.
#![tactic(auto)]

ghost use Rattle.std.specs.Prelude.{◌≡◌, ◌<◌};
ghost use Rattle.reasons.specs.Kinds.{OneText};
ghost use Rattle.engine_state.specs.Steps.{Moves, Does, goes, kept, told, still, FitsQa, FitsQar, FitsQau, Fits, by};
ghost use Rattle.engine_actions.specs.Actions.{
  written_m,
  set_m,
  toggled_m,
  flip_m,
  delay_m,
  unclear_m,
  tested_m,
  condition_m,
  take_list_m,
  choose_m,
  begin_wait_m,
  give_up_m,
};

use bounds::at_most;
use engine_evaluate::{Branch, Truth};
use engine_fields::{about_rule, entity_of, four_at, two_at};
use engine_state::{Setting, State, add, after, log_action, next_step, uncertain};
use engine_trigger::{finish, with_phase};
use engine_update::update;
use layout::Table;
use queue::Work;
use runs::{Run, Source, Wait};

fn write(
    x: &Table,
    q: &mut [u32],
    a: &mut [u32],
    values: &mut [u32; 32],
    versions: &mut [u32; 32],
    st: State,
    run: Run,
    s: Source,
    entity: u32,
    value: u32,
) -> State
    requires { FitsQa st q.old a.old }
    ensures { Moves (written_m x.now run s entity value) st result (by q) (by a) kept still (by values) (by versions)
        kept }
{
    let w = Setting {
        entity,
        value,
        kind: records::ACTION,
        rule: Some(run.automation),
        source: Some(records::Source {
            line: s.line,
            column: s.column,
        }),
    };
    update(x, q, a, values, versions, st, w)
}

pub fn set(
    x: &Table,
    q: &mut [u32],
    a: &mut [u32],
    values: &mut [u32; 32],
    versions: &mut [u32; 32],
    st: State,
    run: Run,
    s: Source,
    entity: u32,
    value: u32,
) -> State
    requires { FitsQa st q.old a.old }
    ensures { Moves (set_m x.now run s entity value) st result (by q) (by a) kept still (by values) (by versions) kept }
{
    let s1 = write(x, q, a, values, versions, st, run, s, entity, value);
    next_step(q, s1, run, s1.now)
}

fn toggled(x: &Table, v: u32) -> u32
    ensures { result ≡ toggled_m x.now v }
{
    if v == x[layout::ON] {
        return x[layout::OFF];
    }
    x[layout::ON]
}

pub fn flip(
    f: &[u8],
    x: &Table,
    q: &mut [u32],
    a: &mut [u32],
    u: &mut [u32],
    values: &mut [u32; 32],
    versions: &mut [u32; 32],
    st: State,
    run: Run,
    s: Source,
    entity: u32,
) -> State
    requires { FitsQau st q.old a.old u.old }
    ensures { Moves (flip_m f.now x.now run s entity) st result (by q) (by a) kept (told f.now u.old u.new)
        (by values) (by versions) kept }
{
    let e = entity_of(x, entity);
    if 31 < e {
        return st;
    }
    let old = values[e];
    if engine_evaluate::undecided(x, old) {
        let i = at_most(run.automation, 31);
        let why = about_rule(f, x, i, reasons::TOGGLE);
        let s1 = uncertain(f, u, st, why);
        return next_step(q, s1, run, s1.now);
    }
    let value = toggled(x, old);
    set(x, q, a, values, versions, st, run, s, entity, value)
}

pub fn delay(q: &mut [u32], a: &mut [u32], st: State, run: Run, s: Source, seconds: u32) -> State
    requires { FitsQa st q.old a.old }
    ensures { Does (delay_m run s seconds) st result (by q) (by a) kept still }
{
    let s1 = log_action(a, st, records::DELAY, seconds, s, run);
    let second = after(s1.now, seconds);
    next_step(q, s1, run, second)
}

// The run ends for a reason.
fn unclear(
    f: &[u8],
    x: &Table,
    q: &mut [u32],
    a: &mut [u32],
    r: &mut [u32],
    u: &mut [u32],
    st: State,
    k: usize,
    run: Run,
    kind: u32,
) -> State
    requires { OneText kind × ((k < st.live_runs) × Fits st q.old a.old r.old u.old) }
    ensures { Does (unclear_m f.now x.now k run kind) st result (by q) (by a) (by r) (told f.now u.old u.new) }
{
    let i = at_most(run.automation, 31);
    let why = about_rule(f, x, i, kind);
    let s1 = uncertain(f, u, st, why);
    finish(q, a, r, s1, k)
}

fn tested(
    f: &[u8],
    x: &Table,
    q: &mut [u32],
    a: &mut [u32],
    r: &mut [u32],
    u: &mut [u32],
    st: State,
    k: usize,
    run: Run,
    verdict: Truth,
) -> State
    requires { (k < st.live_runs) × Fits st q.old a.old r.old u.old }
    ensures { Does (tested_m f.now x.now k run verdict) st result (by q) (by a) (by r) (told f.now u.old u.new) }
{
    match verdict {
        Truth::Yes => next_step(q, st, run, st.now),
        Truth::No => finish(q, a, r, st, k),
        Truth::Unknown => unclear(f, x, q, a, r, u, st, k, run, reasons::ACTION_CONDITION),
    }
}

pub fn condition(
    f: &[u8],
    x: &Table,
    q: &mut [u32],
    a: &mut [u32],
    r: &mut [u32],
    u: &mut [u32],
    values: &[u32; 32],
    st: State,
    k: usize,
    run: Run,
    s: Source,
    at: u32,
) -> State
    requires { (k < st.live_runs) × Fits st q.old a.old r.old u.old }
    ensures { Moves (condition_m f.now x.now k run s at) st result (by q) (by a) (by r) (told f.now u.old u.new)
        (goes values.now values.now) kept kept }
{
    let t = engine_evaluate::evaluate(f, x, values, st.now, at);
    let detail = engine_evaluate::number_of(t);
    let s1 = log_action(a, st, records::CONDITION, detail, s, run);
    tested(f, x, q, a, r, u, s1, k, run, t)
}

fn take_list(
    f: &[u8],
    q: &mut [u32],
    a: &mut [u32],
    r: &mut [u32],
    st: State,
    k: usize,
    run: Run,
    s: Source,
    at: u32,
) -> State
    requires { (k < st.live_runs) × FitsQar st q.old a.old r.old }
    ensures { Does (take_list_m f.now k run s at) st result (by q) (by a) (by r) still }
{
    let longer = engine_evaluate::with_list(f, run, at);
    runs::put_run(r, k, longer);
    let s1 = log_action(a, st, records::CHOOSE, 0, s, run);
    next_step(q, s1, run, s1.now)
}

pub fn choose(
    f: &[u8],
    x: &Table,
    q: &mut [u32],
    a: &mut [u32],
    r: &mut [u32],
    u: &mut [u32],
    values: &[u32; 32],
    st: State,
    k: usize,
    run: Run,
    s: Source,
    at: u32,
) -> State
    requires { (k < st.live_runs) × Fits st q.old a.old r.old u.old }
    ensures { Moves (choose_m f.now x.now k run s at) st result (by q) (by a) (by r) (told f.now u.old u.new)
        (goes values.now values.now) kept kept }
{
    let b = engine_evaluate::select(f, x, values, st.now, at);
    match b {
        Branch::Take(list) => take_list(f, q, a, r, st, k, run, s, list),
        Branch::Unclear => unclear(f, x, q, a, r, u, st, k, run, reasons::CHOOSE_CONDITION),
        Branch::Skip(_) => unclear(f, x, q, a, r, u, st, k, run, reasons::CHOOSE_CONDITION),
    }
}

pub fn begin_wait(
    f: &[u8],
    q: &mut [u32],
    a: &mut [u32],
    r: &mut [u32],
    u: &mut [u32],
    st: State,
    k: usize,
    run: Run,
    s: Source,
    at: u32,
) -> State
    requires { (k < st.live_runs) × Fits st q.old a.old r.old u.old }
    ensures { Does (begin_wait_m f.now k run s at) st result (by q) (by a) (by r) (told f.now u.old u.new) }
{
    if two_at(f, at as usize + 14) != layout::NO_PLACE {
        let why = engine_fields::by_itself(reasons::WAIT);
        let s0 = uncertain(f, u, st, why);
        return finish(q, a, r, s0, k);
    }
    let seconds = four_at(f, at as usize + 16);
    let deadline = after(st.now, seconds);
    let continue_on_timeout = engine_fields::byte_at(f, at as usize + 20) == 1;
    let w = Wait {
        trigger: at,
        deadline,
        continue_on_timeout,
        source: s,
    };
    let waiting = with_phase(run, Some(w));
    runs::put_run(r, k, waiting);
    let work = Work::Timeout {
        automation: run.automation,
        sequence: run.sequence,
    };
    let s1 = add(q, st, deadline, work);
    log_action(a, s1, records::WAIT, seconds, s, run)
}

pub fn give_up(
    f: &[u8],
    q: &mut [u32],
    a: &mut [u32],
    r: &mut [u32],
    u: &mut [u32],
    st: State,
    k: usize,
    run: Run,
    s: Source,
    reason: u32,
) -> State
    requires { (k < st.live_runs) × Fits st q.old a.old r.old u.old }
    ensures { Does (give_up_m f.now k run s reason) st result (by q) (by a) (by r) (told f.now u.old u.new) }
{
    let why = engine_fields::note_reason(f, reason);
    let s1 = uncertain(f, u, st, why);
    let s2 = log_action(a, s1, records::UNKNOWN, reason, s, run);
    finish(q, a, r, s2, k)
}
