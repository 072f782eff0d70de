// Triggers: what a change of an entity sets off, runs that it wakes, and what follows the end of a run.
#![tactic(auto)]

ghost use Rattle.std.specs.Prelude.{◌≡◌, ◌*◌, ◌≤◌, ◌<◌, length};
ghost use Rattle.engine_state.specs.Steps.{Moves, Does, goes, kept, told, still, FitsQr, FitsQar, Fits, by};
ghost use Rattle.engine_trigger.specs.Runs.{released_m, phase_m, release_m, finish_m, wake_one_m, wake_m};
ghost use Rattle.engine_trigger.specs.Triggers.{admit_m, log_trigger_m, offer_m, trigger_m};

use engine_evaluate::Truth;
use engine_fields::rule_word;
use engine_state::{Move, State, Told, log, log_rule, next_step};
use layout::Table;
use records::Source;
use runs::{Phase, Run};

// ---- runs

pub fn released(run: Run) -> Run
    ensures { result ≡ released_m run }
{
    Run {
        queued: false,
        ..run
    }
}

pub fn with_phase(run: Run, phase: Phase) -> Run
    ensures { result ≡ phase_m phase run }
{
    Run { phase, ..run }
}

// The automation's first queued run goes on.
pub fn release(q: &mut [u32], r: &mut [u32], st: State, automation: u32) -> State
    requires { FitsQr st q.old r.old }
    ensures { Does (release_m automation) st result (by q) kept (by r) still }
{
    let found = runs::find_queued(r, st.live_runs, automation);
    match found {
        Some(k) => {
            let run = runs::run_at(r, k);
            runs::put_run(r, k, released(run));
            next_step(q, st, run, st.now)
        }
        None => st,
    }
}

// The run at k ends.
pub fn finish(q: &mut [u32], a: &mut [u32], r: &mut [u32], st: State, k: usize) -> State
    requires { (k < st.live_runs) × FitsQar st q.old a.old r.old }
    ensures { Does (finish_m k) st result (by q) (by a) (by r) still }
{
    let n = st.live_runs;
    let run = runs::run_at(r, k);
    runs::take_run(r, n, k);
    let s1 = engine_state::with_active(st, n - 1);
    let s2 = log_rule(a, s1, records::COMPLETE, run.number, run.automation);
    release(q, r, s2, run.automation)
}

// The run at k goes on, if it waits for this change.
fn wake_one(f: &[u8], q: &mut [u32], r: &mut [u32], st: State, k: usize, m: Move) -> State
    requires { (k < st.live_runs) × FitsQr st q.old r.old }
    ensures { Does (wake_one_m f.now m k) st result (by q) kept (by r) still × (result.live_runs ≡ st.live_runs) }
{
    let phase = runs::phase_at(r, k);
    let Some(w) = phase else {
        return st;
    };
    if engine_evaluate::matches(f, w.trigger, m) {
        let run = runs::run_at(r, k);
        let going = with_phase(run, None);
        runs::put_run(r, k, going);
        return next_step(q, st, run, st.now);
    }
    st
}

fn wake(f: &[u8], q: &mut [u32], r: &mut [u32], st: State, m: Move) -> State
    requires { FitsQr st q.old r.old }
    ensures { Does (wake_m f.now m) st result (by q) kept (by r) still }
{
    let n = st.live_runs;
    let mut s = st;
    for k in 0..n {
        s = wake_one(f, q, r, s, k, m);
    }
    s
}

// ---- a change

// The automation was triggered, and its conditions have this verdict.
fn admit(
    f: &[u8],
    x: &Table,
    q: &mut [u32],
    a: &mut [u32],
    r: &mut [u32],
    u: &mut [u32],
    sequences: &mut [u32; 32],
    st: State,
    i: usize,
    t: Truth,
) -> State
    requires { (i < 32) × Fits st q.old a.old r.old u.old }
    ensures { Moves (admit_m f.now x.now i t) st result (by q) (by a) (by r) (told f.now u.old u.new) kept kept
        (by sequences) }
{
    match t {
        Truth::Yes => {
            let notes = rule_word(x, i, layout::NOTES);
            if engine_fields::two_at(f, notes as usize) == 0 {
                return engine_modes::carry_out(f, x, q, a, r, sequences, st, i);
            }
            st
        }
        Truth::No => st,
        Truth::Unknown => {
            let why = engine_fields::about_rule(f, x, i, reasons::TRIGGER_CONDITION);
            engine_state::uncertain(f, u, st, why)
        }
    }
}

fn log_trigger(f: &[u8], x: &Table, a: &mut [u32], st: State, i: usize, t: Truth) -> State
    requires { (i < 32) × (st.records * 13 ≤ length a.old) }
    ensures { Does (log_trigger_m f.now x.now i t) st result kept (by a) kept still }
{
    let at = rule_word(x, i, layout::SOURCE) as usize;
    let line = engine_fields::four_at(f, at);
    let column = engine_fields::four_at(f, at + 4);
    let detail = engine_evaluate::number_of(t);
    log(
        a,
        st,
        Told {
            kind: records::TRIGGER,
            detail,
        },
        Some(i as u32),
        Some(Source { line, column }),
        None,
    )
}

// An automation sees a change.
fn offer(
    f: &[u8],
    x: &Table,
    q: &mut [u32],
    a: &mut [u32],
    r: &mut [u32],
    u: &mut [u32],
    values: &[u32; 32],
    sequences: &mut [u32; 32],
    st: State,
    i: usize,
    m: Move,
) -> State
    requires { (i < 32) × Fits st q.old a.old r.old u.old }
    ensures { Moves (offer_m f.now x.now m i) st result (by q) (by a) (by r) (told f.now u.old u.new)
        (goes values.now values.now) kept (by sequences) }
{
    if engine_evaluate::any_matches(f, rule_word(x, i, layout::TRIGGERS), m) {
        let judged = engine_evaluate::evaluate_all(
            f,
            x,
            values,
            st.now,
            rule_word(x, i, layout::CONDITIONS),
        );
        let t = judged.truth;
        let s1 = log_trigger(f, x, a, st, i, t);
        return admit(f, x, q, a, r, u, sequences, s1, i, t);
    }
    st
}

// A change wakes runs and sets off automations.
pub fn trigger(
    f: &[u8],
    x: &Table,
    q: &mut [u32],
    a: &mut [u32],
    r: &mut [u32],
    u: &mut [u32],
    values: &[u32; 32],
    sequences: &mut [u32; 32],
    st: State,
    m: Move,
) -> State
    requires { Fits st q.old a.old r.old u.old }
    ensures { Moves (trigger_m f.now x.now m) st result (by q) (by a) (by r) (told f.now u.old u.new)
        (goes values.now values.now) kept (by sequences) }
{
    let n = bounds::at_most(x[layout::AUTOMATION_COUNT], 32);
    let mut s = wake(f, q, r, st, m);
    for i in 0..n {
        s = offer(f, x, q, a, r, u, values, sequences, s, i, m);
    }
    s
}
