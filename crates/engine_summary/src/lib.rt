// The answer of `simulate`, from what a run tells.
#![tactic(auto)]

ghost use Rattle.std.specs.Prelude.{◌≡◌, ◌≤◌};
ghost use Rattle.engine_summary.specs.Summary.{no_simulation, simulation_of};
ghost use Rattle.engine_summary.specs.Summaries.{Firsts, Summed, Answered};

use layout::SimulationReasons;

// ---- the answer

// `refused` is 0 or the refusal's number; then the rest is 0. As many `records` stand in the record area. `values` are the
// places of the entities' values at the end, `unknown` counts the reasons in `reasons`. `stop_reason` is 0, or 1 if
// records or items were spent, 2 if steps were; `runs_left`: runs were left.
#[derive(Clone, Copy)]
pub struct Simulation {
    pub refused: u32,
    pub steps: u32,
    pub records: usize,
    pub horizon: u32,
    pub values: [u32; 32],
    pub unknown: usize,
    pub reasons: SimulationReasons,
    pub stop_reason: u32,
    pub runs_left: bool,
}

pub fn refused(number: u32) -> Simulation
    ensures { result ≡ no_simulation number }
{
    Simulation {
        refused: number,
        steps: 0,
        records: 0,
        horizon: 0,
        values: [0u32; 32],
        unknown: 0,
        reasons: [0u32; layout::SIMULATION_REASON_WORDS],
        stop_reason: 0,
        runs_left: false,
    }
}

#[derive(Clone, Copy)]
pub struct Values {
    pub places: [u32; 32],
}

// The first n values, then zeros.
fn first_values(values: [u32; 32], n: usize) -> Values
    requires { n ≤ 32 }
    ensures { Firsts values n result.places }
{
    let mut places = [0u32; 32];
    for e in 0..n {
        places[e] = values[e];
    }
    Values { places }
}

// A simulation without the words of its reasons.
#[derive(Clone, Copy)]
pub struct Summary {
    pub refused: u32,
    pub steps: u32,
    pub records: usize,
    pub horizon: u32,
    pub values: [u32; 32],
    pub unknown: usize,
    pub stop_reason: u32,
    pub runs_left: bool,
}

// The simulation of a model with so many entities and this horizon.
pub fn summed(s: engine_run::Simulation, entities: usize, horizon: u32) -> Summary
    requires { entities ≤ 32 }
    ensures { Summed s entities horizon result }
{
    let all = s.values;
    let v = first_values(all, entities);
    let values = v.places;
    Summary {
        refused: s.refused,
        steps: s.steps,
        records: s.records,
        horizon,
        values,
        unknown: s.reasons,
        stop_reason: s.stop_reason,
        runs_left: s.runs_left,
    }
}

// A refusal is nothing but its number; the words of the reasons are cleared.
pub fn refused_summary(number: u32, words: &mut SimulationReasons) -> Summary
    ensures { simulation_of result words.new ≡ no_simulation number }
{
    *words = [0u32; layout::SIMULATION_REASON_WORDS];
    Summary {
        refused: number,
        steps: 0,
        records: 0,
        horizon: 0,
        values: [0u32; 32],
        unknown: 0,
        stop_reason: 0,
        runs_left: false,
    }
}

// What a simulation answers.
pub fn settled(b: Summary, words: &mut SimulationReasons) -> Summary
    ensures { Answered (simulation_of b words.old) (simulation_of result words.new) }
{
    if b.refused != 0 {
        return refused_summary(b.refused, words);
    }
    b
}

// The answer as one value, with the words of its reasons.
pub fn with_reasons(b: Summary, words: &SimulationReasons) -> Simulation
    ensures { result ≡ simulation_of b words.now }
{
    let values = b.values;
    let reasons = *words;
    Simulation {
        refused: b.refused,
        steps: b.steps,
        records: b.records,
        horizon: b.horizon,
        values,
        unknown: b.unknown,
        reasons,
        stop_reason: b.stop_reason,
        runs_left: b.runs_left,
    }
}
