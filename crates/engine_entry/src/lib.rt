// The entries `unsupported` and `simulate`.
#![tactic(auto)]

ghost use Rattle.std.specs.Prelude.{◌≡◌, ◌*◌, ◌≤◌, length};
ghost use Rattle.engine_spec.specs.Simulate.{unsupported_of};
ghost use Rattle.engine_summary.specs.Summary.{simulation_of};
ghost use Rattle.engine_entry.specs.Contract.{no_notes, NotesSay, lent, Simulates};
ghost use Rattle.engine_entry.specs.Prepared.{prepared_of, PreparedFrom};
ghost use Rattle.engine_entry.specs.Promises.{Ran, RunsAs};

use engine_state::Cells;
use engine_summary::{Simulation, Summary};
use layout::{SimulationReasons, Table};
use model_index::{Index, Status};

// ---- what the simulations of one model share

// The table, the values at the start, and how many reasons the automations' notes give.
#[derive(Clone, Copy)]
pub struct Base {
    pub table: Table,
    pub cells: Cells,
    pub count: usize,
}

// The reasons of the notes go to `reasons`, five words each.
pub fn prepared(file: &[u8], index: Index, reasons: &mut SimulationReasons) -> Base
    ensures { PreparedFrom file.now index (prepared_of result.table result.cells result.count reasons.new) }
{
    let table = engine_table::table_of(file, index);
    let cells = engine_inputs::cells_of(file, index);
    *reasons = [0u32; layout::SIMULATION_REASON_WORDS];
    let count = engine_unsupported::unsupported(file, &table, reasons);
    Base {
        table,
        cells,
        count,
    }
}

// ---- unsupported

// `refused` is 0 or the refusal's number; then there are no reasons.
#[derive(Clone, Copy)]
pub struct Notes {
    pub refused: u32,
    pub count: usize,
    pub reasons: SimulationReasons,
}

fn refused_notes(number: u32) -> Notes
    ensures { result ≡ no_notes number }
{
    Notes {
        refused: number,
        count: 0,
        reasons: [0u32; layout::SIMULATION_REASON_WORDS],
    }
}

// The notes of a model's automations as reasons, sorted as rendered, each once.
pub fn unsupported(file: &[u8]) -> Notes
    ensures { NotesSay file.now result (unsupported_of file.now) }
{
    let x = model_validate::accept(file);
    let status = x.status;
    match status {
        Status::Refused(number) => refused_notes(number),
        Status::Read => {
            let mut reasons = [0u32; layout::SIMULATION_REASON_WORDS];
            let b = prepared(file, x.index, &mut reasons);
            Notes {
                refused: 0,
                count: b.count,
                reasons,
            }
        }
    }
}

// ---- simulate

// A simulation of a model from its own values, with the first n of the events that stand in four words each. `reasons` holds
// the reasons of the notes, so many, and then those of the simulation.
pub fn run_events(
    file: &[u8],
    table: &Table,
    cells: Cells,
    notes: usize,
    events: &[u32],
    n: usize,
    queue: &mut [u32],
    records: &mut [u32],
    runs: &mut [u32],
    reasons: &mut SimulationReasons,
) -> Summary
    requires { n * 4 ≤ length events.now }
    ensures { Ran file.now (prepared_of table.now cells notes reasons.old) events.now n
        (simulation_of result reasons.new) queue.old queue.new records.old records.new runs.old runs.new }
{
    let count = notes.min(layout::SIMULATION_REASONS);
    let s = engine_run::simulated(
        file, table, events, n, cells, count, queue, records, runs, reasons,
    );
    let entities = bounds::at_most(table[0], 32);
    engine_summary::summed(s, entities, table[2])
}

// The simulation of an accepted model with its own values and events; the words of its reasons go to `reasons`.
fn run(
    file: &[u8],
    index: Index,
    queue: &mut [u32],
    records: &mut [u32],
    runs: &mut [u32],
    reasons: &mut SimulationReasons,
) -> Summary
    ensures { RunsAs file.now index (simulation_of result reasons.new) (lent queue.old records.old runs.old)
        (lent queue.new records.new runs.new) }
{
    let b = prepared(file, index, reasons);
    let table = b.table;
    let cells = b.cells;
    let v = engine_inputs::events_of(file, index);
    let events = v.words;
    let n = bounds::at_most(table[8], 100);
    let s = run_events(
        file, &table, cells, b.count, &events, n, queue, records, runs, reasons,
    );
    engine_summary::settled(s, reasons)
}

// `simulate`, with the words of the reasons in a lent array.
pub fn simulate_lent(
    file: &[u8],
    queue: &mut [u32],
    records: &mut [u32],
    runs: &mut [u32],
    reasons: &mut SimulationReasons,
) -> Summary
    ensures { Simulates file.now (simulation_of result reasons.new) (lent queue.old records.old runs.old)
        (lent queue.new records.new runs.new) }
{
    let x = model_validate::accept(file);
    let status = x.status;
    match status {
        Status::Refused(number) => engine_summary::refused_summary(number, reasons),
        Status::Read => run(file, x.index, queue, records, runs, reasons),
    }
}

// The simulation of a model file, with lent areas of any size.
pub fn simulate(file: &[u8], queue: &mut [u32], records: &mut [u32], runs: &mut [u32]) -> Simulation
    ensures { Simulates file.now result (lent queue.old records.old runs.old)
        (lent queue.new records.new runs.new) }
{
    let mut reasons = [0u32; layout::SIMULATION_REASON_WORDS];
    let s = simulate_lent(file, queue, records, runs, &mut reasons);
    engine_summary::with_reasons(s, &reasons)
}
