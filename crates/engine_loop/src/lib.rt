// The loop of a simulation, from a table, events and starting values.
#![tactic(auto)]

ghost use Rattle.std.specs.Prelude.{◌*◌, ◌≤◌, length};
ghost use Rattle.engine_state.specs.Steps.{Moves, Does, kept, told, still, Fits, by};
ghost use Rattle.engine_loop.specs.Loop.{turn_m, Ends, horizon_m, Closes};
ghost use Rattle.engine_state.specs.Machine.{put_now};

use engine_state::{State, log_plain};
use layout::Table;

// ---- the loop

// The next item is taken and worked off.
fn turn(
    f: &[u8],
    x: &Table,
    q: &mut [u32],
    a: &mut [u32],
    r: &mut [u32],
    u: &mut [u32],
    values: &mut [u32; 32],
    versions: &mut [u32; 32],
    sequences: &mut [u32; 32],
    st: State,
) -> State
    requires { Fits st q.old a.old r.old u.old }
    ensures { Moves (turn_m f.now x.now) st result (by q) (by a) (by r) (told f.now u.old u.new) (by values)
        (by versions) (by sequences) }
{
    if st.items == 0 {
        return st;
    }
    let Some(it) = queue::take(q, st.queue_start, st.items) else {
        return st;
    };
    let work = it.work;
    let s = engine_schedule::at_second(st, it.second);
    engine_dispatch::process(f, x, q, a, r, u, values, versions, sequences, s, work)
}

// The state at the end, the steps taken, and why the loop ended.
#[derive(Clone, Copy)]
pub struct Ended {
    pub state: State,
    pub steps: u32,
    pub stop_reason: u32,
}

pub fn run_loop(
    f: &[u8],
    x: &Table,
    q: &mut [u32],
    a: &mut [u32],
    r: &mut [u32],
    u: &mut [u32],
    values: &mut [u32; 32],
    versions: &mut [u32; 32],
    sequences: &mut [u32; 32],
    st: State,
) -> Ended
    requires { Fits st q.old a.old r.old u.old }
    ensures { Ends f.now x.now st result q.old q.new a.old a.new r.old r.new u.old u.new values.old
        values.new versions.old versions.new sequences.old sequences.new }
{
    let mut s = st;
    let mut left = x[layout::MAX_STEPS];
    let mut stop_reason = engine_schedule::why_stop(x, q, s, left);
    while stop_reason == 4 {
        s = turn(f, x, q, a, r, u, values, versions, sequences, s);
        left -= 1;
        stop_reason = engine_schedule::why_stop(x, q, s, left);
    }
    let steps = x[layout::MAX_STEPS] - left;
    Ended {
        state: s,
        steps,
        stop_reason,
    }
}

// ---- after the loop

fn horizon_reached(x: &Table, a: &mut [u32], st: State) -> State
    requires { st.records * 13 ≤ length a.old }
    ensures { Does (horizon_m x.now) st result kept (by a) kept still }
{
    let s = at_now(st, x[layout::HORIZON]);
    log_plain(a, s, records::HORIZON)
}

fn at_now(st: State, second: u32) -> State
    ensures { Does (put_now second) st result kept kept kept still }
{
    let mut s = st;
    s.now = second;
    s
}

// A simulation that reached the horizon with no run left says so.
pub fn closed(x: &Table, a: &mut [u32], d: Ended) -> Ended
    requires { d.state.records * 13 ≤ length a.old }
    ensures { Closes x.now d result a.old a.new }
{
    let s = d.state;
    if d.stop_reason != 0 {
        return d;
    }
    if s.live_runs != 0 {
        return d;
    }
    let t = horizon_reached(x, a, s);
    Ended {
        state: t,
        steps: d.steps,
        stop_reason: 0,
    }
}
