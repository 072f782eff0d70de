// Runs that begin, as an automation's mode decides.
#![tactic(auto)]

ghost use Rattle.std.specs.Prelude.{◌≡◌, ◌<◌};
ghost use Rattle.engine_state.specs.Steps.{Moves, kept, still, FitsAr, FitsQar, by};
ghost use Rattle.engine_modes.specs.Modes.{new_run, begin_now_m, begin_later_m, stop_start_m, decide_m, carry_out_m};

use engine_fields::rule_word;
use engine_state::{State, log_rule, next_step};
use layout::Table;
use runs::Run;

// A run of the i-th automation, where so many runs were made.
fn new_run(f: &[u8], x: &Table, sequences: &[u32; 32], made: u32, i: usize, later: bool) -> Run
    requires { i < 32 }
    ensures { result ≡ new_run f.now x.now i later made sequences.now }
{
    let sequence = sequences[i];
    let number = engine_state::more_than(made);
    let run = Run {
        automation: i as u32,
        sequence,
        number,
        queued: later,
        phase: None,
        depth: 0,
        places: [0u32; 17],
    };
    engine_evaluate::with_list(f, run, rule_word(x, i, layout::ACTIONS))
}

fn begin_now(
    f: &[u8],
    x: &Table,
    q: &mut [u32],
    a: &mut [u32],
    r: &mut [u32],
    sequences: &mut [u32; 32],
    st: State,
    i: usize,
) -> State
    requires { (i < 32) × FitsQar st q.old a.old r.old }
    ensures { Moves (begin_now_m f.now x.now i) st result (by q) (by a) (by r) still kept kept (by sequences) }
{
    let run = new_run(f, x, sequences, st.runs_created, i, false);
    let s1 = engine_state::add_run(r, sequences, st, i, run);
    let s2 = log_rule(a, s1, records::START, run.number, run.automation);
    next_step(q, s2, run, s2.now)
}

fn begin_later(
    f: &[u8],
    x: &Table,
    a: &mut [u32],
    r: &mut [u32],
    sequences: &mut [u32; 32],
    st: State,
    i: usize,
) -> State
    requires { (i < 32) × FitsAr st a.old r.old }
    ensures { Moves (begin_later_m f.now x.now i) st result kept (by a) (by r) still kept kept (by sequences) }
{
    let run = new_run(f, x, sequences, st.runs_created, i, true);
    let s1 = engine_state::add_run(r, sequences, st, i, run);
    log_rule(a, s1, records::QUEUED, run.number, run.automation)
}

#[derive(Clone, Copy)]
pub enum Decision {
    AlreadyRunning,
    MaxReached,
    Start,
    StopAndStart,
    WaitInLine,
}

// Modes: 0 single, 1 restart, 2 queued, 3 parallel.
fn decide(mode: u32, max: u32, running: usize) -> Decision
    ensures { result ≡ decide_m mode max running }
{
    if mode < 2 {
        if running == 0 {
            return Decision::Start;
        }
        if mode == 0 {
            return Decision::AlreadyRunning;
        }
        return Decision::StopAndStart;
    }
    if max as usize <= running {
        return Decision::MaxReached;
    }
    if mode == 3 {
        return Decision::Start;
    }
    if running == 0 {
        return Decision::Start;
    }
    Decision::WaitInLine
}

// The automation's runs are dropped, and one begins.
fn stop_and_start(
    f: &[u8],
    x: &Table,
    q: &mut [u32],
    a: &mut [u32],
    r: &mut [u32],
    sequences: &mut [u32; 32],
    st: State,
    i: usize,
) -> State
    requires { (i < 32) × FitsQar st q.old a.old r.old }
    ensures { Moves (stop_start_m f.now x.now i) st result (by q) (by a) (by r) still kept kept (by sequences) }
{
    let left = runs::drop_runs(r, st.live_runs, i as u32);
    let s1 = engine_state::with_active(st, left);
    let s2 = log_rule(a, s1, records::CANCEL, 0, i as u32);
    begin_now(f, x, q, a, r, sequences, s2, i)
}

// The automation is to run.
pub fn carry_out(
    f: &[u8],
    x: &Table,
    q: &mut [u32],
    a: &mut [u32],
    r: &mut [u32],
    sequences: &mut [u32; 32],
    st: State,
    i: usize,
) -> State
    requires { (i < 32) × FitsQar st q.old a.old r.old }
    ensures { Moves (carry_out_m f.now x.now i) st result (by q) (by a) (by r) still kept kept (by sequences) }
{
    let running = runs::count_runs(r, st.live_runs, i as u32);
    let d = decide(
        rule_word(x, i, layout::MODE),
        rule_word(x, i, layout::MAX),
        running,
    );
    match d {
        Decision::AlreadyRunning => log_rule(a, st, records::SINGLE_RUNNING, 0, i as u32),
        Decision::MaxReached => log_rule(a, st, records::MAX_REACHED, 0, i as u32),
        Decision::Start => begin_now(f, x, q, a, r, sequences, st, i),
        Decision::StopAndStart => stop_and_start(f, x, q, a, r, sequences, st, i),
        Decision::WaitInLine => begin_later(f, x, a, r, sequences, st, i),
    }
}
