// A run's next action, and each item of the queue.
#![tactic(auto)]

ghost use Rattle.std.specs.Prelude.{◌≡◌, ◌<◌};
ghost use Rattle.engine_state.specs.Steps.{Moves, kept, told, Fits, by};
ghost use Rattle.engine_dispatch.specs.Resume.{perform_m, go_on_m, going_m, resume_m};
ghost use Rattle.engine_dispatch.specs.Dispatch.{process_m};

use engine_actions::{begin_wait, choose, condition, delay, flip, give_up, set};
use engine_evaluate::Effect;
use engine_handlers::{drop_all, external, go_stale, time_out};
use engine_state::{Move, State};
use engine_trigger::finish;
use layout::Table;
use queue::Work;
use runs::{Run, Source};

fn perform(
    f: &[u8],
    x: &Table,
    q: &mut [u32],
    a: &mut [u32],
    r: &mut [u32],
    u: &mut [u32],
    values: &mut [u32; 32],
    versions: &mut [u32; 32],
    st: State,
    k: usize,
    run: Run,
    s: Source,
    e: Effect,
) -> State
    requires { (k < st.live_runs) × Fits st q.old a.old r.old u.old }
    ensures { Moves (perform_m f.now x.now k run s e) st result (by q) (by a) (by r) (told f.now u.old u.new)
        (by values) (by versions) kept }
{
    match e {
        Effect::Set { entity, value } => {
            set(x, q, a, values, versions, st, run, s, entity, value)
        }
        Effect::Toggle { entity } => flip(f, x, q, a, u, values, versions, st, run, s, entity),
        Effect::Delay { seconds } => delay(q, a, st, run, s, seconds),
        Effect::Condition { at } => condition(f, x, q, a, r, u, values, st, k, run, s, at),
        Effect::Choose { at } => choose(f, x, q, a, r, u, values, st, k, run, s, at),
        Effect::Wait { at } => begin_wait(f, q, a, r, u, st, k, run, s, at),
        Effect::Unknown { reason } => give_up(f, q, a, r, u, st, k, run, s, reason),
    }
}

// The run's next action, or its end.
fn go_on(
    f: &[u8],
    x: &Table,
    q: &mut [u32],
    a: &mut [u32],
    r: &mut [u32],
    u: &mut [u32],
    values: &mut [u32; 32],
    versions: &mut [u32; 32],
    st: State,
    k: usize,
) -> State
    requires { (k < st.live_runs) × Fits st q.old a.old r.old u.old }
    ensures { Moves (go_on_m f.now x.now k) st result (by q) (by a) (by r) (told f.now u.old u.new) (by values)
        (by versions) kept }
{
    let run = runs::run_at(r, k);
    if run.depth == 0 {
        return finish(q, a, r, st, k);
    }
    let place = engine_evaluate::top(run);
    let action = engine_evaluate::action_at(f, x, place.position);
    let next = engine_evaluate::stepped(run, action.next);
    let source = action.source;
    let effect = action.effect;
    runs::put_run(r, k, next);
    perform(
        f, x, q, a, r, u, values, versions, st, k, next, source, effect,
    )
}

// Whether the run can go on.
fn is_going(run: Run) -> bool
    ensures { result ≡ going_m run }
{
    !run.queued && run.phase.is_none()
}

fn resume(
    f: &[u8],
    x: &Table,
    q: &mut [u32],
    a: &mut [u32],
    r: &mut [u32],
    u: &mut [u32],
    values: &mut [u32; 32],
    versions: &mut [u32; 32],
    st: State,
    automation: u32,
    sequence: u32,
) -> State
    requires { Fits st q.old a.old r.old u.old }
    ensures { Moves (resume_m f.now x.now automation sequence) st result (by q) (by a) (by r)
        (told f.now u.old u.new) (by values) (by versions) kept }
{
    let found = runs::find_run(r, st.live_runs, automation, sequence);
    let Some(k) = found else {
        return st;
    };
    let run = runs::run_at(r, k);
    if is_going(run) {
        return go_on(f, x, q, a, r, u, values, versions, st, k);
    }
    st
}

// An item of the queue is worked off.
pub fn process(
    f: &[u8],
    x: &Table,
    q: &mut [u32],
    a: &mut [u32],
    r: &mut [u32],
    u: &mut [u32],
    values: &mut [u32; 32],
    versions: &mut [u32; 32],
    sequences: &mut [u32; 32],
    st: State,
    work: Work,
) -> State
    requires { Fits st q.old a.old r.old u.old }
    ensures { Moves (process_m f.now x.now work) st result (by q) (by a) (by r) (told f.now u.old u.new)
        (by values) (by versions) (by sequences) }
{
    match work {
        Work::Set { entity, value } => external(x, q, a, values, versions, st, entity, value),
        Work::Restart => drop_all(a, r, st),
        Work::Reload => drop_all(a, r, st),
        Work::Changed { entity, from, to } => {
            engine_trigger::trigger(
                f,
                x,
                q,
                a,
                r,
                u,
                values,
                sequences,
                st,
                Move { entity, from, to },
            )
        }
        Work::Resume {
            automation,
            sequence,
        } => resume(f, x, q, a, r, u, values, versions, st, automation, sequence),
        Work::Timeout {
            automation,
            sequence,
        } => time_out(q, a, r, st, automation, sequence),
        Work::Stale { entity, version } => go_stale(x, q, a, values, versions, st, entity, version),
    }
}
