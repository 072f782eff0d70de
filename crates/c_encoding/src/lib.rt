// An answer as numbers in a lent slice (include/fukhtsege.h).
#![tactic(auto)]

ghost use Rattle.std.specs.Prelude.{◌≡◌, ◌+◌, ◌≤◌, length};
ghost use Rattle.areas.specs.Areas.{written};
ghost use Rattle.engine_summary.specs.Summary.{simulation_of};
ghost use Rattle.checker_result.specs.Result.{result_of};
ghost use Rattle.search_answer.specs.Result.{whole_of};
ghost use Rattle.c_encoding.specs.Numbers.{
  flag_of,
  status_number,
  found_number,
  refusal_of,
  laid_notes,
  laid_simulation,
  laid_check,
  laid_search,
  laid_reduction,
  laid_report,
  laid_cone,
  notes_in,
  simulation_in,
  check_in,
  search_in,
  verification_in,
  minimized_in,
  report_in,
  cone_in,
};

use checker_result::{CheckResult, Judgement, Status};
use cone_entry::ConeResult;
use engine_entry::Notes;
use engine_summary::Summary;
use layout::{EventWords, IncompleteReasons, SimulationReasons, VerdictReasons, Violations};
use lint_entry::Report;
use reduce_result::Minimized;
use search_answer::{Found, Searched};

// ---- numbers

fn put_numbers(out: &mut [u64], at: usize, w: &[u64])
    requires { at + length w.now ≤ length out.old }
    ensures { out.new ≡ written out.old at w.now }
{
    out[at..at + w.len()].copy_from_slice(w);
}

fn wide(x: u32) -> u64
    ensures { result ≡ x }
{
    x as u64
}

fn put_words(out: &mut [u64], at: usize, w: &[u32])
    requires { at + length w.now ≤ length out.old }
    ensures { out.new ≡ written out.old at w.now }
{
    for (k, x) in w.iter().enumerate() {
        out[at + k] = wide(*x);
    }
}

fn flag(b: bool) -> u64
    ensures { result ≡ flag_of b }
{
    if b { 1 } else { 0 }
}

// ---- unsupported

fn lay_notes(out: &mut [u64], head: &[u64; 4], reasons: &SimulationReasons)
    requires { 1504 ≤ length out.old }
    ensures { out.new ≡ laid_notes head.now reasons.now out.old }
{
    put_numbers(out, 0, head);
    put_words(out, 4, reasons);
}

pub fn put_notes(out: &mut [u64], r: Notes)
    requires { 1504 ≤ length out.old }
    ensures { out.new ≡ notes_in r out.old }
{
    let head = [r.count as u64, 0, 0, 0];
    lay_notes(out, &head, &r.reasons);
}

// ---- simulate

fn lay_simulation(
    out: &mut [u64],
    at: usize,
    head: &[u64; 8],
    values: &[u32; 32],
    reasons: &SimulationReasons,
)
    requires { at + 1540 ≤ length out.old }
    ensures { out.new ≡ laid_simulation at head.now values.now reasons.now out.old }
{
    put_numbers(out, at, head);
    put_words(out, at + 8, values);
    put_words(out, at + 40, reasons);
}

pub fn put_simulation(out: &mut [u64], at: usize, s: Summary, reasons: &SimulationReasons)
    requires { at + 1540 ≤ length out.old }
    ensures { out.new ≡ simulation_in at (simulation_of s reasons.now) out.old }
{
    let head = [
        wide(s.steps),
        s.records as u64,
        wide(s.horizon),
        s.unknown as u64,
        wide(s.stop_reason),
        flag(s.runs_left),
        0,
        0,
    ];
    lay_simulation(out, at, &head, &s.values, reasons);
}

// ---- check

fn status_number(status: Status) -> u64
    ensures { result ≡ status_number status }
{
    match status {
        Status::Refused(_) => 0,
        Status::Unknown => 1,
        Status::Violation => 2,
        Status::Incomplete => 3,
        Status::NoViolationInTrace => 4,
    }
}

fn lay_check(
    out: &mut [u64],
    at: usize,
    head: &[u64; 4],
    violated: &Violations,
    unknowns: &VerdictReasons,
    incompletes: &IncompleteReasons,
)
    requires { at + 2460 ≤ length out.old }
    ensures { out.new ≡ laid_check at head.now violated.now unknowns.now incompletes.now out.old }
{
    put_numbers(out, at, head);
    put_numbers(out, at + 4, violated);
    put_words(out, at + 260, unknowns);
    put_words(out, at + 2260, incompletes);
}

pub fn put_check(
    out: &mut [u64],
    at: usize,
    j: Judgement,
    reasons: &SimulationReasons,
    violated: &Violations,
    unknowns: &VerdictReasons,
    incompletes: &IncompleteReasons,
)
    requires { at + 4000 ≤ length out.old }
    ensures { out.new ≡ check_in at (result_of j violated.now unknowns.now incompletes.now reasons.now)
        out.old }
{
    let status = j.status;
    let head = [
        status_number(status),
        j.violations as u64,
        j.unknown as u64,
        j.incomplete as u64,
    ];
    lay_check(out, at, &head, violated, unknowns, incompletes);
    let s = j.simulation;
    put_simulation(out, at + 2460, s, reasons);
}

// ---- verify

fn found_number(status: Found) -> u64
    ensures { result ≡ found_number status }
{
    match status {
        Found::Refused(_) => 0,
        Found::NoCounterexampleWithinBounds => 1,
        Found::Counterexample => 2,
        Found::Inconclusive => 3,
    }
}

pub fn refusal_of(status: Found) -> u32
    ensures { result ≡ refusal_of status }
{
    match status {
        Found::Refused(number) => number,
        Found::NoCounterexampleWithinBounds => 0,
        Found::Counterexample => 0,
        Found::Inconclusive => 0,
    }
}

fn lay_search(
    out: &mut [u64],
    head: &[u64; 16],
    inputs: &[u32; 36],
    seconds: &[u32; 4],
    words: &[u32; 20],
    told: &VerdictReasons,
)
    requires { 2076 ≤ length out.old }
    ensures { out.new ≡ laid_search head.now inputs.now seconds.now words.now told.now out.old }
{
    put_numbers(out, 0, head);
    put_words(out, 16, inputs);
    put_words(out, 52, seconds);
    put_words(out, 56, words);
    put_words(out, 76, told);
}

fn put_searched(out: &mut [u64], v: Searched, told: &VerdictReasons)
    requires { 2076 ≤ length out.old }
    ensures { out.new ≡ search_in v told.now out.old }
{
    let status = v.status;
    let head = [
        found_number(status),
        wide(v.cases),
        wide(v.total_steps),
        wide(v.depth),
        wide(v.horizon),
        wide(v.max_cases),
        wide(v.max_steps_per_case),
        v.alphabet as u64,
        v.gaps as u64,
        v.reasons as u64,
        flag(v.shortest),
        v.events as u64,
        v.written as u64,
        0,
        0,
        0,
    ];
    let inputs = v.inputs;
    let seconds = v.seconds;
    let words = v.words;
    lay_search(out, &head, &inputs, &seconds, &words, told);
}

pub fn put_verification(
    out: &mut [u64],
    v: Searched,
    told: &VerdictReasons,
    reasons: &SimulationReasons,
    violated: &Violations,
    unknowns: &VerdictReasons,
    incompletes: &IncompleteReasons,
)
    requires { 6076 ≤ length out.old }
    ensures { out.new ≡ verification_in (whole_of v told.now violated.now unknowns.now incompletes.now reasons.now)
        out.old }
{
    put_searched(out, v, told);
    let j = v.check;
    put_check(out, 2076, j, reasons, violated, unknowns, incompletes);
}

// ---- minimize

fn lay_reduction(out: &mut [u64], head: &[u64; 8], words: &EventWords)
    requires { 408 ≤ length out.old }
    ensures { out.new ≡ laid_reduction head.now words.now out.old }
{
    put_numbers(out, 0, head);
    put_words(out, 8, words);
}

// A check as one value.
fn put_result(out: &mut [u64], at: usize, c: CheckResult)
    requires { at + 4000 ≤ length out.old }
    ensures { out.new ≡ check_in at c out.old }
{
    let status = c.status;
    let head = [
        status_number(status),
        c.violations as u64,
        c.unknown as u64,
        c.incomplete as u64,
    ];
    let violated = c.violated;
    let unknowns = c.unknowns;
    let incompletes = c.incompletes;
    lay_check(out, at, &head, &violated, &unknowns, &incompletes);
    let s = c.simulation;
    let values = s.values;
    let reasons = s.reasons;
    let b = Summary {
        refused: s.refused,
        steps: s.steps,
        records: s.records,
        horizon: s.horizon,
        values,
        unknown: s.unknown,
        stop_reason: s.stop_reason,
        runs_left: s.runs_left,
    };
    put_simulation(out, at + 2460, b, &reasons);
}

pub fn put_minimized(out: &mut [u64], m: Minimized)
    requires { 4408 ≤ length out.old }
    ensures { out.new ≡ minimized_in m out.old }
{
    let head = [
        wide(m.invariant),
        m.original_events as u64,
        wide(m.attempts),
        flag(m.deletion_minimal),
        m.events as u64,
        m.written as u64,
        0,
        0,
    ];
    lay_reduction(out, &head, &m.words);
    let check = m.check;
    put_result(out, 408, check);
}

// ---- lint

fn lay_report<'a>(
    out: &mut [u64],
    head: &[u64; 4],
    cycles: &'a [u32; 32],
    reads: &'a [u32; 32],
    writes: &'a [u32; 32],
    names: &'a [u32; 64],
    readers: &'a [u32; 64],
)
    requires { 228 ≤ length out.old }
    ensures { out.new ≡ laid_report head.now cycles.now reads.now writes.now names.now readers.now
        out.old }
{
    put_numbers(out, 0, head);
    put_words(out, 4, cycles);
    put_words(out, 36, reads);
    put_words(out, 68, writes);
    put_words(out, 100, names);
    put_words(out, 164, readers);
}

pub fn put_report(out: &mut [u64], r: Report)
    requires { 228 ≤ length out.old }
    ensures { out.new ≡ report_in r out.old }
{
    let head = [
        r.findings as u64,
        r.interactions as u64,
        r.components as u64,
        r.undeclared as u64,
    ];
    lay_report(
        out, &head, &r.cycles, &r.reads, &r.writes, &r.names, &r.readers,
    );
}

// ---- cone

fn lay_cone(out: &mut [u64], head: &[u64; 4], names: &[u32; 64])
    requires { 68 ≤ length out.old }
    ensures { out.new ≡ laid_cone head.now names.now out.old }
{
    put_numbers(out, 0, head);
    put_words(out, 4, names);
}

pub fn put_cone(out: &mut [u64], r: ConeResult)
    requires { 68 ≤ length out.old }
    ensures { out.new ≡ cone_in r out.old }
{
    let head = [
        wide(r.entities),
        wide(r.automations),
        r.undeclared as u64,
        0,
    ];
    lay_cone(out, &head, &r.names);
}
