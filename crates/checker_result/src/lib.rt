// The verdict on a simulation, and the answer of `check` as one value.
#![tactic(auto)]

ghost use Rattle.checker_result.specs.Statuses.{refusal_m, is_refused_m, is_violation_m};
ghost use Rattle.std.specs.Prelude.{◌≡◌, ◌+◌, ◌*◌, ◌≤◌, length};
ghost use Rattle.checker_result.specs.Result.{no_check, result_of};
ghost use Rattle.checker_result.specs.Verdicts.{Fits, status_m, Starts, Ends, Judged, Answered};

use checker_collect::Counts;
use engine_state::Cells;
use engine_summary::{Simulation, Summary};
use layout::{IncompleteReasons, Positions, SimulationReasons, Table, VerdictReasons, Violations};

#[derive(Clone, Copy)]
pub enum Status {
    Refused(u32),
    Unknown,
    Violation,
    Incomplete,
    NoViolationInTrace,
}

// The status, or the refusal's number; then all counts and words are 0. `violated` holds the violations, eight numbers each;
// `unknowns` and `incompletes` hold the reasons, five words each, sorted as rendered.
#[derive(Clone, Copy)]
pub struct CheckResult {
    pub status: Status,
    pub violations: usize,
    pub violated: Violations,
    pub unknown: usize,
    pub unknowns: VerdictReasons,
    pub incomplete: usize,
    pub incompletes: IncompleteReasons,
    pub simulation: Simulation,
}

// A refusal: no violations, no reasons.
pub fn refused(number: u32) -> CheckResult
    ensures { result ≡ no_check number }
{
    let simulation = engine_summary::refused(number);
    CheckResult {
        status: Status::Refused(number),
        violations: 0,
        violated: [0u64; layout::VIOLATIONS],
        unknown: 0,
        unknowns: [0u32; layout::VERDICT_REASON_WORDS],
        incomplete: 0,
        incompletes: [0u32; layout::INCOMPLETE_REASON_WORDS],
        simulation,
    }
}

// Unknown before violation before incomplete.
fn status_of(t: Counts) -> Status
    ensures { result ≡ status_m t }
{
    if t.unknown != 0 {
        return Status::Unknown;
    }
    if t.violations != 0 {
        return Status::Violation;
    }
    if t.incomplete != 0 {
        return Status::Incomplete;
    }
    Status::NoViolationInTrace
}

// At most as many records as the area holds.
fn fitting(n: usize, a: &[u32]) -> usize
    ensures { Fits n (length a.now) result }
{
    let most = a.len() / 13;
    if most < n {
        return most;
    }
    n
}

// Why the simulation stopped, as reasons.
fn add_stopped(f: &[u8], w: &mut [u32], why: u32) -> usize
    requires { 5 ≤ length w.old }
    ensures { Starts f.now why w.old result w.new }
{
    if why == 0 {
        return 0;
    }
    if why == 1 {
        let space = engine_fields::by_itself(reasons::SPACE_SPENT);
        return reasons::insert_sorted(f, w, 0, space);
    }
    let steps = engine_fields::by_itself(reasons::STEPS_SPENT);
    reasons::insert_sorted(f, w, 0, steps)
}

// And that runs were left.
fn add_waiting(f: &[u8], w: &mut [u32], n: usize, waiting: bool) -> usize
    requires { n * 5 + 5 ≤ length w.old }
    ensures { Ends f.now waiting n w.old result w.new }
{
    if waiting {
        let left = engine_fields::by_itself(reasons::RUNS_LEFT);
        return reasons::insert_sorted(f, w, n, left);
    }
    n
}

// ---- a check, its lists in lent arrays

// What the checks of one model share beside its table and the positions of its invariants: the values at the start, how many
// reasons the notes give, and how many invariants there are.
#[derive(Clone, Copy)]
pub struct Shared {
    pub cells: Cells,
    pub notes: usize,
    pub invariants: u32,
}

// A check without its lists and without the words of its reasons.
#[derive(Clone, Copy)]
pub struct Judgement {
    pub status: Status,
    pub violations: usize,
    pub unknown: usize,
    pub incomplete: usize,
    pub simulation: Summary,
}

// The verdict on a simulation whose records stand in the area `a`, and the words of its reasons in `told`.
pub fn verdict(
    f: &[u8],
    x: &Table,
    starts: &Positions,
    shared: Shared,
    a: &[u32],
    s: Summary,
    told: &SimulationReasons,
    violated: &mut Violations,
    unknowns: &mut VerdictReasons,
    incompletes: &mut IncompleteReasons,
) -> Judgement
    ensures { Judged f.now x.now starts.now shared a.now s result told.now violated.new unknowns.new
        incompletes.new }
{
    let none = [0u64; layout::VIOLATIONS];
    *violated = none;
    *unknowns = [0u32; layout::VERDICT_REASON_WORDS];
    *incompletes = [0u32; layout::INCOMPLETE_REASON_WORDS];
    let many = s.unknown.min(layout::SIMULATION_REASONS);
    let unknown = reasons::merge(f, unknowns, 0, told, many);
    let stopped = add_stopped(f, incompletes, s.stop_reason);
    let incomplete = add_waiting(f, incompletes, stopped, s.runs_left);
    let start = Counts {
        violations: 0,
        unknown,
        incomplete,
    };
    let n = fitting(s.records, a);
    let cells = shared.cells;
    let t = checker_collect::judge_all(
        f,
        x,
        starts,
        shared.invariants,
        cells,
        a,
        n,
        violated,
        unknowns,
        incompletes,
        start,
    );
    let status = status_of(t);
    Judgement {
        status,
        violations: t.violations,
        unknown: t.unknown,
        incomplete: t.incomplete,
        simulation: s,
    }
}

// ---- the answer in lent arrays

// A refusal is nothing but its number: the lists and the words of the reasons are cleared.
pub fn refused_judgement(
    number: u32,
    reasons: &mut SimulationReasons,
    violated: &mut Violations,
    unknowns: &mut VerdictReasons,
    incompletes: &mut IncompleteReasons,
) -> Judgement
    ensures { result_of result violated.new unknowns.new incompletes.new reasons.new ≡ no_check number }
{
    let simulation = engine_summary::refused_summary(number, reasons);
    *violated = [0u64; layout::VIOLATIONS];
    *unknowns = [0u32; layout::VERDICT_REASON_WORDS];
    *incompletes = [0u32; layout::INCOMPLETE_REASON_WORDS];
    Judgement {
        status: Status::Refused(number),
        violations: 0,
        unknown: 0,
        incomplete: 0,
        simulation,
    }
}

// What a check answers.
pub fn settled(
    j: Judgement,
    reasons: &mut SimulationReasons,
    violated: &mut Violations,
    unknowns: &mut VerdictReasons,
    incompletes: &mut IncompleteReasons,
) -> Judgement
    ensures { Answered (result_of j violated.old unknowns.old incompletes.old reasons.old)
        (result_of result violated.new unknowns.new incompletes.new reasons.new) }
{
    let s = j.simulation;
    if s.refused != 0 {
        return refused_judgement(s.refused, reasons, violated, unknowns, incompletes);
    }
    j
}

// ---- the answer as one value

pub fn with_lists(
    j: Judgement,
    reasons: &SimulationReasons,
    violations: &Violations,
    unknown: &VerdictReasons,
    incomplete: &IncompleteReasons,
) -> CheckResult
    ensures { result ≡ result_of j violations.now unknown.now incomplete.now reasons.now }
{
    let status = j.status;
    let s = j.simulation;
    let simulation = engine_summary::with_reasons(s, reasons);
    let violated = *violations;
    let unknowns = *unknown;
    let incompletes = *incomplete;
    CheckResult {
        status,
        violations: j.violations,
        violated,
        unknown: j.unknown,
        unknowns,
        incomplete: j.incomplete,
        incompletes,
        simulation,
    }
}

// ---- questions about a status

// The refusal's number, or 0.
pub fn refusal_of(status: Status) -> u32
    ensures { result ≡ refusal_m status }
{
    match status {
        Status::Refused(number) => number,
        Status::Unknown => 0,
        Status::Violation => 0,
        Status::Incomplete => 0,
        Status::NoViolationInTrace => 0,
    }
}

pub fn is_refused(status: Status) -> bool
    ensures { result ≡ is_refused_m status }
{
    match status {
        Status::Refused(_) => true,
        Status::Unknown => false,
        Status::Violation => false,
        Status::Incomplete => false,
        Status::NoViolationInTrace => false,
    }
}

pub fn is_violation(status: Status) -> bool
    ensures { result ≡ is_violation_m status }
{
    match status {
        Status::Refused(_) => false,
        Status::Unknown => false,
        Status::Violation => true,
        Status::Incomplete => false,
        Status::NoViolationInTrace => false,
    }
}
