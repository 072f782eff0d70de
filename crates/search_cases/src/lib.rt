// What a search goes by, and what each of its cases adds to it.
#![tactic(auto)]

ghost use Rattle.std.specs.Prelude.{◌≡◌, ◌+◌, ◌*◌, ◌≤◌, ◌<◌, length};
ghost use Rattle.engine_fields.specs.Fields.{cap};
ghost use Rattle.search_cases.specs.Promises.{
  limit_m,
  Plans,
  Shaped,
  refused_m,
  Spends,
  Found,
  Other,
  Gathers,
  Nexts,
  Begins,
};

use checker_result::Shared;
use engine_state::Cells;
use layout::{IncompleteReasons, SimulationReasons, VerdictReasons};
use model_index::Index;
use search_inputs::{Alphabet, Gaps, Placed};

// What all cases share beside the arrays that are lent: the start, what is chosen from, the horizon and the most cases.
#[derive(Clone, Copy)]
pub struct Plan {
    pub shared: Shared,
    pub alphabet: Alphabet,
    pub gaps: Gaps,
    pub horizon: u32,
    pub cases: u32,
}

// How far a search has come. `refused` is 0 or the number of the case that was refused; `reasons` counts the reasons, which
// stand in a lent area of words. With `found`, the witness's events are `witness`.
#[derive(Clone, Copy)]
pub struct Search {
    pub refused: u32,
    pub cases: u32,
    pub steps: u32,
    pub reasons: usize,
    pub found: bool,
    pub shortest: bool,
    pub stopped: bool,
    pub witness: Placed,
}

// ---- numbers with a bound

// ---- what a search goes by

// A limit of the model.
pub fn limit(file: &[u8], limits: usize, k: usize) -> u32
    requires { k ≤ 12 }
    ensures { result ≡ limit_m file.now limits k }
{
    let p = engine_fields::capped(limits) as usize;
    engine_fields::four_at(file, p + k)
}

// From the values at the start, and so many reasons of the notes.
pub fn planned(file: &[u8], index: Index, cells: Cells, notes: usize) -> Plan
    ensures { Plans file.now index cells notes result }
{
    let invariants = index.invariants;
    let shared = Shared {
        cells,
        notes,
        invariants: invariants.count,
    };
    let alphabet = search_inputs::alphabet_of(file, index);
    let gaps = search_inputs::gaps_of(file, index);
    let horizon = limit(file, index.limits, 0);
    let cases = limit(file, index.limits, 12).min(2000);
    Plan {
        shared,
        alphabet,
        gaps,
        horizon,
        cases,
    }
}

// ---- a case

// A case was refused.
pub fn refused_case(o: Search, number: u32) -> Search
    ensures { result ≡ refused_m o number }
{
    let witness = o.witness;
    Search {
        refused: number,
        cases: o.cases,
        steps: o.steps,
        reasons: o.reasons,
        found: o.found,
        shortest: o.shortest,
        stopped: true,
        witness,
    }
}

// The budget is spent: no case more.
pub fn spent(f: &[u8], o: Search, w: &mut [u32]) -> Search
    requires { length w.old ≡ 4000 }
    ensures { Spends f.now o w.old result w.new }
{
    let witness = o.witness;
    let n = o.reasons.min(layout::VERDICT_REASONS);
    let why = engine_fields::by_itself(reasons::SEARCH_SPENT);
    let count = reasons::insert_sorted(f, w, n, why);
    Search {
        refused: o.refused,
        cases: o.cases,
        steps: o.steps,
        reasons: count,
        found: o.found,
        shortest: o.shortest,
        stopped: true,
        witness,
    }
}

// A violation: the search ends with these events as the witness.
pub fn found_case(o: Search, placed: Placed, steps: u32) -> Search
    requires { (o.cases < 2000) × (o.steps < 200000) }
    ensures { Found o placed steps result }
{
    Search {
        refused: o.refused,
        cases: o.cases + 1,
        steps: o.steps + steps.min(10000),
        reasons: o.reasons,
        found: true,
        shortest: o.reasons == 0,
        stopped: true,
        witness: placed,
    }
}

// The reasons of a check among the others.
pub fn gather(
    f: &[u8],
    w: &mut [u32],
    n: usize,
    unknown: usize,
    unknowns: &VerdictReasons,
    incomplete: usize,
    incompletes: &IncompleteReasons,
) -> usize
    requires { length w.old ≡ 4000 }
    ensures { Gathers f.now n unknown unknowns.now incomplete incompletes.now w.old result w.new }
{
    let k = n.min(layout::VERDICT_REASONS);
    let many = unknown.min(layout::VERDICT_REASONS);
    let first = reasons::merge(f, w, k, unknowns, many);
    let j = first.min(layout::VERDICT_REASONS);
    let more = incomplete.min(layout::INCOMPLETE_REASONS);
    reasons::merge(f, w, j, incompletes, more)
}

// No violation: the search goes on, with the reasons of this case.
pub fn other_case(o: Search, count: usize, steps: u32) -> Search
    requires { (o.cases < 2000) × (o.steps < 200000) }
    ensures { Other o count steps result }
{
    let witness = o.witness;
    Search {
        refused: o.refused,
        cases: o.cases + 1,
        steps: o.steps + steps.min(10000),
        reasons: count,
        found: o.found,
        shortest: o.shortest,
        stopped: false,
        witness,
    }
}

// ---- the search

// A gap behind a second.
fn later(last: u32, gap: u32) -> u32
    ensures { result ≡ cap (last + gap) }
{
    engine_fields::capped(last as usize + gap as usize)
}

// The events placed so far and the k-th of the pairs of a gap and an input.
pub fn next_events(p: Plan, placed: Placed, k: usize) -> Placed
    requires { (k < p.gaps.count * p.alphabet.count) × Shaped p placed 1 4000 }
    ensures { Nexts p.gaps p.alphabet placed k result }
{
    let alphabet = p.alphabet;
    let gaps = p.gaps;
    let inputs = alphabet.count;
    let seconds = gaps.seconds;
    let last = search_inputs::last_at(placed);
    let at = later(last, seconds[k / inputs]);
    search_inputs::place(placed, at, alphabet, k % inputs)
}

// Before the first case: the reasons of the automations' notes, so many.
pub fn begun(f: &[u8], notes: &SimulationReasons, n: usize, w: &mut [u32]) -> Search
    requires { length w.old ≡ 4000 }
    ensures { Begins f.now n notes.now w.old result w.new }
{
    let many = n.min(layout::SIMULATION_REASONS);
    let count = reasons::merge(f, w, 0, notes, many);
    Search {
        refused: 0,
        cases: 0,
        steps: 0,
        reasons: count,
        found: false,
        shortest: false,
        stopped: false,
        witness: Placed {
            count: 0,
            words: [0u32; 20],
        },
    }
}
