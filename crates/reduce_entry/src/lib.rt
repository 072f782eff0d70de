// The entry `minimize`: a violating model with fewer events, written as a model file.
#![tactic(auto)]

ghost use Rattle.engine_entry.specs.Contract.{lent};
ghost use Rattle.engine_entry.specs.Prepared.{prepared_of};
ghost use Rattle.reduce_entry.specs.Contract.{Minimizes};
ghost use Rattle.reduce_entry.specs.Promises.{Accepted, Given, Aimed, ReducesTo, ReducesAll, RunsAs};

use engine_entry::Base;
use engine_inputs::Events;
use layout::SimulationReasons;
use model_index::Index;
use reduce_result::Minimized;

// The reduction of a model whose events violate the target.
fn reduction(
    file: &[u8],
    index: Index,
    b: Base,
    notes: &SimulationReasons,
    target: u64,
    events: Events,
    n: usize,
    queue: &mut [u32],
    records: &mut [u32],
    runs: &mut [u32],
    output: &mut [u8],
) -> Minimized
    requires { Aimed file.now index (prepared_of b.table b.cells b.count notes.now) target events n
        output.old }
    ensures { ReducesTo file.now index (prepared_of b.table b.cells b.count notes.now) target events n result
        queue.old queue.new records.old records.new runs.old runs.new output.old output.new }
{
    let r = reduce::reduce_events(
        file, index, b, notes, target, events, n, queue, records, runs,
    );
    if r.refused != 0 {
        areas::clear_three(queue, records, runs);
        return reduce_result::refused(r.refused);
    }
    reduce_result::last_check(
        file, index, b, notes, target, n, r, queue, records, runs, output,
    )
}

// The first check, and the reduction if it is a violation.
fn first_check(
    file: &[u8],
    index: Index,
    b: Base,
    notes: &SimulationReasons,
    events: Events,
    n: usize,
    queue: &mut [u32],
    records: &mut [u32],
    runs: &mut [u32],
    output: &mut [u8],
) -> Minimized
    requires { Given file.now index (prepared_of b.table b.cells b.count notes.now) events n output.old }
    ensures { ReducesAll file.now index (prepared_of b.table b.cells b.count notes.now) events n result
        queue.old
        queue.new records.old records.new runs.old runs.new output.old output.new }
{
    let words = events.words;
    let c = reduce_result::check_of(file, index, b, notes, &words, n, queue, records, runs);
    let s = c.simulation;
    if s.refused != 0 {
        return reduce_result::refused(s.refused);
    }
    let status = c.status;
    let violated = c.violated;
    if checker_result::is_violation(status) {
        let target = violated[0];
        return reduction(
            file, index, b, notes, target, events, n, queue, records, runs, output,
        );
    }
    areas::clear_three(queue, records, runs);
    reduce_result::refused(21)
}

// An accepted model.
fn run(
    file: &[u8],
    index: Index,
    queue: &mut [u32],
    records: &mut [u32],
    runs: &mut [u32],
    output: &mut [u8],
) -> Minimized
    requires { Accepted file.now index }
    ensures { RunsAs file.now index result (lent queue.old records.old runs.old)
        (lent queue.new records.new runs.new) output.old output.new }
{
    if output.len() < file.len() + 45 {
        return reduce_result::refused(44);
    }
    let mut notes = [0u32; layout::SIMULATION_REASON_WORDS];
    let b = engine_entry::prepared(file, index, &mut notes);
    let table = b.table;
    let events = engine_inputs::events_of(file, index);
    let n = bounds::at_most(table[8], 100);
    first_check(
        file, index, b, &notes, events, n, queue, records, runs, output,
    )
}

// The reduction of a violating model, with lent areas of any size.
pub fn minimize(
    file: &[u8],
    queue: &mut [u32],
    records: &mut [u32],
    runs: &mut [u32],
    output: &mut [u8],
) -> Minimized
    ensures { Minimizes file.now result (lent queue.old records.old runs.old)
        (lent queue.new records.new runs.new) output.old output.new }
{
    let x = model_validate::accept(file);
    let status = x.status;
    match status {
        model_index::Status::Refused(number) => reduce_result::refused(number),
        model_index::Status::Read => run(file, x.index, queue, records, runs, output),
    }
}
