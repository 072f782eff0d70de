// The answer of `verify`, from a search and its witness.
#![tactic(auto)]

ghost use Rattle.std.specs.Prelude.{◌≡◌, List, ℕ, length};
ghost use Rattle.checker_result.specs.Result.{result_of};
ghost use Rattle.search_answer.specs.Result.{whole_of, no_verification};
ghost use Rattle.search_answer.specs.Answer.{status_m, with_check, without, Told};

use checker_result::{CheckResult, Judgement};
use layout::{IncompleteReasons, SimulationReasons, VerdictReasons, Violations};
use search_cases::{Plan, Search};

#[derive(Clone, Copy)]
pub enum Found {
    Refused(u32),
    NoCounterexampleWithinBounds,
    Counterexample,
    Inconclusive,
}

// The status, or the refusal's number; then all else is 0. The settings are the model's: `inputs` are the alphabet, three
// words each, `seconds` the gaps. `told` are the reasons, five words each, sorted as rendered. With a counterexample,
// `words` are the witness's events, four words each, `written` the bytes of its file, `check` its check.
#[derive(Clone, Copy)]
pub struct Verification {
    pub status: Found,
    pub cases: u32,
    pub total_steps: u32,
    pub depth: u32,
    pub horizon: u32,
    pub max_cases: u32,
    pub max_steps_per_case: u32,
    pub alphabet: usize,
    pub inputs: [u32; 36],
    pub gaps: usize,
    pub seconds: [u32; 4],
    pub reasons: usize,
    pub told: VerdictReasons,
    pub shortest: bool,
    pub events: usize,
    pub words: [u32; 20],
    pub written: usize,
    pub check: CheckResult,
}

// A verification without its lists: `told`, and those of the check.
#[derive(Clone, Copy)]
pub struct Searched {
    pub status: Found,
    pub cases: u32,
    pub total_steps: u32,
    pub depth: u32,
    pub horizon: u32,
    pub max_cases: u32,
    pub max_steps_per_case: u32,
    pub alphabet: usize,
    pub inputs: [u32; 36],
    pub gaps: usize,
    pub seconds: [u32; 4],
    pub reasons: usize,
    pub shortest: bool,
    pub events: usize,
    pub words: [u32; 20],
    pub written: usize,
    pub check: Judgement,
}

// A refusal is nothing but its number; all lists are cleared.
pub fn refused(
    number: u32,
    told: &mut VerdictReasons,
    reasons: &mut SimulationReasons,
    violated: &mut Violations,
    unknowns: &mut VerdictReasons,
    incompletes: &mut IncompleteReasons,
) -> Searched
    ensures { whole_of result told.new violated.new unknowns.new incompletes.new reasons.new
        ≡ no_verification number }
{
    let check = checker_result::refused_judgement(0, reasons, violated, unknowns, incompletes);
    *told = [0u32; layout::VERDICT_REASON_WORDS];
    Searched {
        status: Found::Refused(number),
        cases: 0,
        total_steps: 0,
        depth: 0,
        horizon: 0,
        max_cases: 0,
        max_steps_per_case: 0,
        alphabet: 0,
        inputs: [0u32; 36],
        gaps: 0,
        seconds: [0u32; 4],
        reasons: 0,
        shortest: false,
        events: 0,
        words: [0u32; 20],
        written: 0,
        check,
    }
}

// ---- the witness

// A witness's events, the bytes of its file, and its check without the lists.
#[derive(Clone, Copy)]
pub struct Witness {
    pub events: usize,
    pub words: [u32; 20],
    pub written: usize,
    pub check: Judgement,
}

pub fn no_witness(
    reasons: &mut SimulationReasons,
    violated: &mut Violations,
    unknowns: &mut VerdictReasons,
    incompletes: &mut IncompleteReasons,
) -> Witness
    ensures { with_check result (result_of result.check violated.new unknowns.new incompletes.new reasons.new)
        ≡ without }
{
    let check = checker_result::refused_judgement(0, reasons, violated, unknowns, incompletes);
    Witness {
        events: 0,
        words: [0u32; 20],
        written: 0,
        check,
    }
}

// ---- the answer

fn status_of(found: bool, reasons: usize) -> Found
    ensures { result ≡ status_m found reasons }
{
    if found {
        return Found::Counterexample;
    }
    if reasons == 0 {
        return Found::NoCounterexampleWithinBounds;
    }
    Found::Inconclusive
}

// The answer of a search whose reasons stand in w, without the lists of the witness's check.
pub fn told_of(
    file: &[u8],
    limits: usize,
    p: Plan,
    o: Search,
    w: &[u32],
    x: Witness,
    told: &mut VerdictReasons,
) -> Searched
    requires { length w.now ≡ 4000 }
    ensures { (v us ws s : List ℕ) → Told file.now limits p.alphabet p.gaps p.horizon o w.now
        (with_check x (result_of x.check v us ws s)) (whole_of result told.new v us ws s) }
{
    let alphabet = p.alphabet;
    let inputs = alphabet.words;
    let gaps = p.gaps;
    let seconds = gaps.seconds;
    let words = x.words;
    let check = x.check;
    *told = [0u32; layout::VERDICT_REASON_WORDS];
    let many = o.reasons.min(layout::VERDICT_REASONS);
    let reasons = reasons::merge(file, told, 0, w, many);
    let status = status_of(o.found, reasons);
    Searched {
        status,
        cases: o.cases,
        total_steps: o.steps,
        depth: search_cases::limit(file, limits, 8),
        horizon: p.horizon,
        max_cases: search_cases::limit(file, limits, 12),
        max_steps_per_case: search_cases::limit(file, limits, 4),
        alphabet: alphabet.count,
        inputs,
        gaps: gaps.count,
        seconds,
        reasons,
        shortest: o.shortest,
        events: x.events,
        words,
        written: x.written,
        check,
    }
}

// ---- the answer as one value

pub fn with_lists(
    x: Searched,
    list: &VerdictReasons,
    reasons: &SimulationReasons,
    violated: &Violations,
    unknowns: &VerdictReasons,
    incompletes: &IncompleteReasons,
) -> Verification
    ensures { result ≡ whole_of x list.now violated.now unknowns.now incompletes.now reasons.now }
{
    let status = x.status;
    let j = x.check;
    let check = checker_result::with_lists(j, reasons, violated, unknowns, incompletes);
    let inputs = x.inputs;
    let seconds = x.seconds;
    let words = x.words;
    let told = *list;
    Verification {
        status,
        cases: x.cases,
        total_steps: x.total_steps,
        depth: x.depth,
        horizon: x.horizon,
        max_cases: x.max_cases,
        max_steps_per_case: x.max_steps_per_case,
        alphabet: x.alphabet,
        inputs,
        gaps: x.gaps,
        seconds,
        reasons: x.reasons,
        told,
        shortest: x.shortest,
        events: x.events,
        words,
        written: x.written,
        check,
    }
}
