// Handlers of the queue's items besides a run's actions: an input from outside, a restart, a timeout, a value that expires.
#![tactic(auto)]

ghost use Rattle.std.specs.Prelude.{◌<◌};
ghost use Rattle.engine_state.specs.Steps.{Moves, Does, goes, kept, still, FitsQa, FitsAr, FitsQar, by};
ghost use Rattle.engine_handlers.specs.Handlers.{wait_over_m, time_out_m, expire_m, go_stale_m, drop_all_m, external_m};

use engine_fields::entity_of;
use engine_state::{Move, Setting, State, log_action, next_step};
use engine_trigger::{finish, with_phase};
use engine_update::update;
use layout::Table;
use runs::{Run, Wait};

fn wait_over(
    q: &mut [u32],
    a: &mut [u32],
    r: &mut [u32],
    st: State,
    k: usize,
    run: Run,
    w: Wait,
) -> State
    requires { (k < st.live_runs) × FitsQar st q.old a.old r.old }
    ensures { Does (wait_over_m k run w) st result (by q) (by a) (by r) still }
{
    if w.deadline != st.now {
        return st;
    }
    let s = w.source;
    if w.continue_on_timeout {
        let s1 = log_action(a, st, records::TIMEOUT, 1, s, run);
        let going = with_phase(run, None);
        runs::put_run(r, k, going);
        return next_step(q, s1, run, s1.now);
    }
    let s2 = log_action(a, st, records::TIMEOUT, 0, s, run);
    finish(q, a, r, s2, k)
}

pub fn time_out(
    q: &mut [u32],
    a: &mut [u32],
    r: &mut [u32],
    st: State,
    automation: u32,
    sequence: u32,
) -> State
    requires { FitsQar st q.old a.old r.old }
    ensures { Does (time_out_m automation sequence) st result (by q) (by a) (by r) still }
{
    let found = runs::find_run(r, st.live_runs, automation, sequence);
    let Some(k) = found else {
        return st;
    };
    let run = runs::run_at(r, k);
    let phase = run.phase;
    let Some(w) = phase else {
        return st;
    };
    wait_over(q, a, r, st, k, run, w)
}

fn expire(
    x: &Table,
    q: &mut [u32],
    a: &mut [u32],
    values: &mut [u32; 32],
    st: State,
    e: usize,
) -> State
    requires { (e < 32) × FitsQa st q.old a.old }
    ensures { Moves (expire_m x.now e) st result (by q) (by a) kept still (by values) kept kept }
{
    let from = values[e];
    let entity = engine_fields::name_of(x, e);
    let to = x[layout::UNKNOWN];
    let m = Move { entity, from, to };
    values[e] = to;
    let w = Setting {
        entity,
        value: to,
        kind: records::STALE,
        rule: None,
        source: None,
    };
    let s1 = engine_state::log_write(a, st, w, m);
    engine_update::changed(q, s1, m)
}

pub fn go_stale(
    x: &Table,
    q: &mut [u32],
    a: &mut [u32],
    values: &mut [u32; 32],
    versions: &[u32; 32],
    st: State,
    entity: u32,
    version: u32,
) -> State
    requires { FitsQa st q.old a.old }
    ensures { Moves (go_stale_m x.now entity version) st result (by q) (by a) kept still (by values)
        (goes versions.now versions.now) kept }
{
    let e = entity_of(x, entity);
    if 31 < e {
        return st;
    }
    if versions[e] != version {
        return st;
    }
    if values[e] == x[layout::UNKNOWN] {
        return st;
    }
    expire(x, q, a, values, st, e)
}

// All runs go; behind them the area is zeros already.
pub fn drop_all(a: &mut [u32], r: &mut [u32], st: State) -> State
    requires { FitsAr st a.old r.old }
    ensures { Does (drop_all_m) st result kept (by a) (by r) still }
{
    let n = st.live_runs;
    areas::clear(r, 0, n * 28);
    let s1 = engine_state::with_active(st, 0);
    engine_state::log_plain(a, s1, records::RESTART)
}

pub fn external(
    x: &Table,
    q: &mut [u32],
    a: &mut [u32],
    values: &mut [u32; 32],
    versions: &mut [u32; 32],
    st: State,
    entity: u32,
    value: u32,
) -> State
    requires { FitsQa st q.old a.old }
    ensures { Moves (external_m x.now entity value) st result (by q) (by a) kept still (by values) (by versions) kept }
{
    let w = Setting {
        entity,
        value,
        kind: records::EXTERNAL,
        rule: None,
        source: None,
    };
    update(x, q, a, values, versions, st, w)
}
