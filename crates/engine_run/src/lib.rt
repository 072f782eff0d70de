// A simulation from a table, events, starting values and the reasons so far.
#![tactic(auto)]

ghost use Rattle.layout.specs.Sizes.{simulation_reason_words};
ghost use Rattle.std.specs.Prelude.{◌≡◌, ◌+◌, ◌*◌, ◌≤◌, length};
ghost use Rattle.engine_state.specs.Steps.{Fits};
ghost use Rattle.engine_run.specs.Run.{Clears, Wholly, start_of, refusal_m, answer_ended_m, Simulates};

use engine_loop::Ended;
use engine_state::{Cells, State};
use layout::Table;

// All of the loop, with what begins and what closes it.
fn run_all(
    f: &[u8],
    x: &Table,
    events: &[u32],
    count: usize,
    q: &mut [u32],
    a: &mut [u32],
    r: &mut [u32],
    u: &mut [u32],
    values: &mut [u32; 32],
    versions: &mut [u32; 32],
    sequences: &mut [u32; 32],
    st: State,
) -> Ended
    requires { (count * 4 ≤ length events.now) × Fits st q.old a.old r.old u.old }
    ensures { Wholly f.now x.now events.now count st result q.old q.new a.old a.new r.old r.new u.old
        u.new values.old values.new versions.old versions.new sequences.old sequences.new }
{
    let s = engine_schedule::begun(x, events, count, q, a, versions, st);
    let d = engine_loop::run_loop(f, x, q, a, r, u, values, versions, sequences, s);
    engine_loop::closed(x, a, d)
}

// The state at the start; the queue begins at the entry `first`.
fn start(first: usize, reasons: usize) -> State
    ensures { result ≡ start_of first reasons }
{
    State {
        now: 0,
        items: 0,
        queue_start: first,
        records: 0,
        live_runs: 0,
        reasons,
        runs_created: 0,
        overflow: 0,
    }
}

// `refused` is 0, or 41 to 43 where an area was full; then the rest is 0.
#[derive(Clone, Copy)]
pub struct Simulation {
    pub refused: u32,
    pub steps: u32,
    pub records: usize,
    pub reasons: usize,
    pub stop_reason: u32,
    pub runs_left: bool,
    pub values: [u32; 32],
}

fn refusal(number: u32) -> Simulation
    ensures { result ≡ refusal_m number }
{
    Simulation {
        refused: number,
        steps: 0,
        records: 0,
        reasons: 0,
        stop_reason: 0,
        runs_left: false,
        values: [0u32; 32],
    }
}

fn answer(e: Ended, values: [u32; 32]) -> Simulation
    ensures { result ≡ answer_ended_m e values }
{
    let st = e.state;
    let runs_left = st.live_runs != 0;
    Simulation {
        refused: 0,
        steps: e.steps,
        records: st.records,
        reasons: st.reasons,
        stop_reason: e.stop_reason,
        runs_left,
        values,
    }
}

// The items of a queue are cleared, n from the entry `first` on.
fn clear_items(q: &mut [u32], first: usize, n: usize)
    requires { (first + n) * 5 ≤ length q.old }
    ensures { Clears q.old (first * 5) (n * 5) q.new }
{
    areas::clear(q, first * 5, n * 5);
}

// The first n runs are cleared.
fn clear_runs(r: &mut [u32], n: usize)
    requires { n * 28 ≤ length r.old }
    ensures { Clears r.old 0 (n * 28) r.new }
{
    areas::clear(r, 0, n * 28);
}

// The areas of queue, records and runs are cleared before; `u` holds so many reasons.
// After it queue and runs are cleared, and the records too if an area was full.
pub fn simulated(
    f: &[u8],
    x: &Table,
    events: &[u32],
    count: usize,
    cells: Cells,
    reasons: usize,
    q: &mut [u32],
    a: &mut [u32],
    r: &mut [u32],
    u: &mut [u32],
) -> Simulation
    requires { (count * 4 ≤ length events.now)
        × ((reasons * 5 ≤ length u.old) × (simulation_reason_words ≤ length u.old)) }
    ensures { Simulates f.now x.now events.now count cells reasons result q.old q.new a.old a.new r.old
        r.new u.old u.new }
{
    areas::clear_all(q);
    areas::clear_all(a);
    areas::clear_all(r);
    // Free places before the first item and behind it.
    let middle = q.len() / 10;
    let st = start(middle, reasons);
    let mut values = cells.values;
    let mut versions = cells.versions;
    let mut sequences = [0u32; 32];
    let e = run_all(
        f,
        x,
        events,
        count,
        q,
        a,
        r,
        u,
        &mut values,
        &mut versions,
        &mut sequences,
        st,
    );
    let s = e.state;
    // Only the items and runs that are left: the rest is zeros.
    clear_items(q, s.queue_start, s.items);
    clear_runs(r, s.live_runs);
    if s.overflow != 0 {
        areas::clear_all(a);
        return refusal(s.overflow);
    }
    answer(e, values)
}
