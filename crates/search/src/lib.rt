// The bounded search for a violation: each list of events up to a depth, by depth, from the alphabet and the gaps.
#![tactic(auto)]

ghost use Rattle.std.specs.Prelude.{◌*◌, ◌≤◌, ◌<◌, length};
ghost use Rattle.search_cases.specs.Promises.{Fitted, Shaped};
ghost use Rattle.search.specs.Meaning.{entire};
ghost use Rattle.search.specs.Promises.{Tries, Visits, Deepens};

use layout::{IncompleteReasons, Positions, SimulationReasons, Table, VerdictReasons, Violations};
use search_cases::{Plan, Search};
use search_inputs::Placed;

// ---- a case

// The check with the events placed so far, unless the budget is spent.
fn try_case(
    file: &[u8],
    table: &Table,
    starts: &Positions,
    notes: &SimulationReasons,
    p: Plan,
    placed: Placed,
    o: Search,
    queue: &mut [u32],
    records: &mut [u32],
    runs: &mut [u32],
    w: &mut [u32],
    reasons: &mut SimulationReasons,
    violated: &mut Violations,
    unknowns: &mut VerdictReasons,
    incompletes: &mut IncompleteReasons,
) -> Search
    requires { Shaped p placed 0 (length w.old) }
    ensures { Tries file.now (entire p table.now starts.now notes.now) placed o w.old result w.new
        (length queue.old) (length records.old) (length runs.old) }
{
    if p.cases <= o.cases {
        return search_cases::spent(file, o, w);
    }
    if 200000 <= o.steps {
        return search_cases::spent(file, o, w);
    }
    let shared = p.shared;
    let events = placed.words;
    let n = placed.count;
    let c = checker_retry::check_case(
        file,
        table,
        starts,
        notes,
        shared,
        &events,
        n,
        queue,
        records,
        runs,
        reasons,
        violated,
        unknowns,
        incompletes,
    );
    let status = c.status;
    let simulation = c.simulation;
    let number = checker_result::refusal_of(status);
    if number != 0 {
        return search_cases::refused_case(o, number);
    }
    if checker_result::is_violation(status) {
        return search_cases::found_case(o, placed, simulation.steps);
    }
    let count = search_cases::gather(
        file,
        w,
        o.reasons,
        c.unknown,
        unknowns,
        c.incomplete,
        incompletes,
    );
    search_cases::other_case(o, count, simulation.steps)
}

// ---- the search

// `remaining` more events are placed, and then the case is checked.
fn visit(
    file: &[u8],
    table: &Table,
    starts: &Positions,
    notes: &SimulationReasons,
    p: Plan,
    remaining: usize,
    placed: Placed,
    o: Search,
    queue: &mut [u32],
    records: &mut [u32],
    runs: &mut [u32],
    w: &mut [u32],
    reasons: &mut SimulationReasons,
    violated: &mut Violations,
    unknowns: &mut VerdictReasons,
    incompletes: &mut IncompleteReasons,
) -> Search
    requires { Shaped p placed remaining (length w.old) }
    ensures { Visits file.now (entire p table.now starts.now notes.now) remaining placed o w.old result w.new
        (length queue.old) (length records.old) (length runs.old) }
{
    if o.stopped {
        return o;
    }
    if p.horizon < search_inputs::last_at(placed) {
        return o;
    }
    if remaining == 0 {
        return try_case(
            file,
            table,
            starts,
            notes,
            p,
            placed,
            o,
            queue,
            records,
            runs,
            w,
            reasons,
            violated,
            unknowns,
            incompletes,
        );
    }
    let gaps = p.gaps;
    let alphabet = p.alphabet;
    let pairs = gaps.count * alphabet.count;
    let mut s = o;
    for k in 0..pairs {
        let next = search_cases::next_events(p, placed, k);
        s = visit(
            file,
            table,
            starts,
            notes,
            p,
            remaining - 1,
            next,
            s,
            queue,
            records,
            runs,
            w,
            reasons,
            violated,
            unknowns,
            incompletes,
        );
    }
    s
}

// The depths from 0 to `depth`.
fn deepen(
    file: &[u8],
    table: &Table,
    starts: &Positions,
    notes: &SimulationReasons,
    p: Plan,
    depth: usize,
    o: Search,
    queue: &mut [u32],
    records: &mut [u32],
    runs: &mut [u32],
    w: &mut [u32],
    reasons: &mut SimulationReasons,
    violated: &mut Violations,
    unknowns: &mut VerdictReasons,
    incompletes: &mut IncompleteReasons,
) -> Search
    requires { (depth ≤ 5) × Fitted p (length w.old) }
    ensures { Deepens file.now (entire p table.now starts.now notes.now) depth o w.old result w.new
        (length queue.old) (length records.old) (length runs.old) }
{
    let none = Placed {
        count: 0,
        words: [0u32; 20],
    };
    let mut s = o;
    for d in 0..depth + 1 {
        s = visit(
            file,
            table,
            starts,
            notes,
            p,
            d,
            none,
            s,
            queue,
            records,
            runs,
            w,
            reasons,
            violated,
            unknowns,
            incompletes,
        );
    }
    s
}

// The same, with the arrays that each check writes.
pub fn search_depths(
    file: &[u8],
    table: &Table,
    starts: &Positions,
    notes: &SimulationReasons,
    p: Plan,
    depth: usize,
    o: Search,
    queue: &mut [u32],
    records: &mut [u32],
    runs: &mut [u32],
    w: &mut [u32],
) -> Search
    requires { (depth ≤ 5) × Fitted p (length w.old) }
    ensures { Deepens file.now (entire p table.now starts.now notes.now) depth o w.old result w.new
        (length queue.old) (length records.old) (length runs.old) }
{
    let mut reasons = [0u32; layout::SIMULATION_REASON_WORDS];
    let mut violated = [0u64; layout::VIOLATIONS];
    let mut unknowns = [0u32; layout::VERDICT_REASON_WORDS];
    let mut incompletes = [0u32; layout::INCOMPLETE_REASON_WORDS];
    deepen(
        file,
        table,
        starts,
        notes,
        p,
        depth,
        o,
        queue,
        records,
        runs,
        w,
        &mut reasons,
        &mut violated,
        &mut unknowns,
        &mut incompletes,
    )
}
