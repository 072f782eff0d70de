// The entry `verify`: the bounded search, its witness and the witness's file.
#![tactic(auto)]

ghost use Rattle.std.specs.Prelude.{◌+◌, ◌≤◌, length};
ghost use Rattle.engine_entry.specs.Contract.{lent};
ghost use Rattle.checker_result.specs.Result.{result_of};
ghost use Rattle.search.specs.Meaning.{entire};
ghost use Rattle.search_answer.specs.Result.{whole_of};
ghost use Rattle.search_entry.specs.Contract.{Verifies};
ghost use Rattle.search_answer.specs.Answer.{with_check};
ghost use Rattle.search_entry.specs.Promises.{Writable, Writes, Reached, Ends, Accepted, Runs, Admits};

use layout::{IncompleteReasons, Positions, SimulationReasons, Table, VerdictReasons, Violations};
use model_index::Index;
use search_answer::{Searched, Verification, Witness};
use search_cases::{Plan, Search};
use search_inputs::Placed;

// ---- the witness

// The witness is checked once more, and its file is written. `reasons` holds the reasons of the notes, and then those of the
// witness's simulation.
fn witness_of(
    file: &[u8],
    table: &Table,
    starts: &Positions,
    p: Plan,
    placed: Placed,
    queue: &mut [u32],
    records: &mut [u32],
    runs: &mut [u32],
    output: &mut [u8],
    reasons: &mut SimulationReasons,
    violated: &mut Violations,
    unknowns: &mut VerdictReasons,
    incompletes: &mut IncompleteReasons,
) -> Witness
    requires { Writable file.now (entire p table.now starts.now reasons.old) placed (length queue.old)
        (length records.old) (length runs.old) (length output.old) }
    ensures { Writes file.now (entire p table.now starts.now reasons.old) placed
        (with_check result (result_of result.check violated.new unknowns.new incompletes.new reasons.new)) (length queue.old)
        (length records.old) (length runs.old) (lent queue.new records.new runs.new) output.old output.new }
{
    let shared = p.shared;
    let words = placed.words;
    let n = placed.count;
    let check = checker_entry::check_settled(
        file,
        table,
        starts,
        shared,
        &words,
        n,
        queue,
        records,
        runs,
        reasons,
        violated,
        unknowns,
        incompletes,
    );
    let place = model_rewrite::events_in(file);
    let written = model_rewrite::rewrite(file, place, &words, n, output);
    Witness {
        events: n,
        words,
        written,
        check,
    }
}

// ---- the answer

// What is left to do after the search.
fn ended(
    file: &[u8],
    limits: usize,
    table: &Table,
    starts: &Positions,
    p: Plan,
    o: Search,
    w: &[u32],
    queue: &mut [u32],
    records: &mut [u32],
    runs: &mut [u32],
    output: &mut [u8],
    told: &mut VerdictReasons,
    reasons: &mut SimulationReasons,
    violated: &mut Violations,
    unknowns: &mut VerdictReasons,
    incompletes: &mut IncompleteReasons,
) -> Searched
    requires { Reached file.now (entire p table.now starts.now reasons.old) o w.now (length queue.old)
        (length records.old) (length runs.old) (length output.old) }
    ensures { Ends file.now limits (entire p table.now starts.now reasons.old) o w.now
        (whole_of result told.new violated.new unknowns.new incompletes.new reasons.new) (length queue.old)
        (length records.old) (length runs.old) (lent queue.new records.new runs.new) output.old output.new }
{
    if o.refused != 0 {
        areas::clear_three(queue, records, runs);
        return search_answer::refused(o.refused, told, reasons, violated, unknowns, incompletes);
    }
    if o.found {
        let placed = o.witness;
        let x = witness_of(
            file,
            table,
            starts,
            p,
            placed,
            queue,
            records,
            runs,
            output,
            reasons,
            violated,
            unknowns,
            incompletes,
        );
        return search_answer::told_of(file, limits, p, o, w, x, told);
    }
    areas::clear_three(queue, records, runs);
    let x = search_answer::no_witness(reasons, violated, unknowns, incompletes);
    search_answer::told_of(file, limits, p, o, w, x, told)
}

// The search of an accepted model.
fn run(
    file: &[u8],
    index: Index,
    queue: &mut [u32],
    records: &mut [u32],
    runs: &mut [u32],
    output: &mut [u8],
    told: &mut VerdictReasons,
    reasons: &mut SimulationReasons,
    violated: &mut Violations,
    unknowns: &mut VerdictReasons,
    incompletes: &mut IncompleteReasons,
) -> Searched
    requires { (Accepted file.now index) × (length file.now + 45 ≤ length output.old) }
    ensures { Runs file.now index (whole_of result told.new violated.new unknowns.new incompletes.new reasons.new)
        (length queue.old) (length records.old) (length runs.old) (lent queue.new records.new runs.new) output.old
        output.new }
{
    let mut w = [0u32; 4000];
    let b = engine_entry::prepared(file, index, reasons);
    let table = b.table;
    let cells = b.cells;
    let invariants = index.invariants;
    let starts = invariants.starts;
    let p = search_cases::planned(file, index, cells, b.count);
    let shared = p.shared;
    let start = search_cases::begun(file, reasons, shared.notes, &mut w);
    let depth = bounds::at_most(search_cases::limit(file, index.limits, 8), 5);
    let o = search::search_depths(
        file, &table, &starts, reasons, p, depth, start, queue, records, runs, &mut w,
    );
    ended(
        file,
        index.limits,
        &table,
        &starts,
        p,
        o,
        &w,
        queue,
        records,
        runs,
        output,
        told,
        reasons,
        violated,
        unknowns,
        incompletes,
    )
}

// An accepted model without invariants is refused, and an output without room for a witness's file.
fn admitted(
    file: &[u8],
    index: Index,
    queue: &mut [u32],
    records: &mut [u32],
    runs: &mut [u32],
    output: &mut [u8],
    told: &mut VerdictReasons,
    reasons: &mut SimulationReasons,
    violated: &mut Violations,
    unknowns: &mut VerdictReasons,
    incompletes: &mut IncompleteReasons,
) -> Searched
    requires { Accepted file.now index }
    ensures { Admits file.now index (whole_of result told.new violated.new unknowns.new incompletes.new reasons.new)
        (lent queue.old records.old runs.old) (lent queue.new records.new runs.new) output.old output.new }
{
    let invariants = index.invariants;
    if invariants.count == 0 {
        return search_answer::refused(20, told, reasons, violated, unknowns, incompletes);
    }
    if output.len() < 45 {
        return search_answer::refused(44, told, reasons, violated, unknowns, incompletes);
    }
    if output.len() - 45 < file.len() {
        return search_answer::refused(44, told, reasons, violated, unknowns, incompletes);
    }
    run(
        file,
        index,
        queue,
        records,
        runs,
        output,
        told,
        reasons,
        violated,
        unknowns,
        incompletes,
    )
}

// `verify`, with its lists and those of the witness's check in lent arrays.
pub fn verify_lent(
    file: &[u8],
    queue: &mut [u32],
    records: &mut [u32],
    runs: &mut [u32],
    output: &mut [u8],
    told: &mut VerdictReasons,
    reasons: &mut SimulationReasons,
    violated: &mut Violations,
    unknowns: &mut VerdictReasons,
    incompletes: &mut IncompleteReasons,
) -> Searched
    ensures { Verifies file.now (whole_of result told.new violated.new unknowns.new incompletes.new reasons.new)
        (lent queue.old records.old runs.old) (lent queue.new records.new runs.new) output.old output.new }
{
    let x = model_validate::accept(file);
    let status = x.status;
    match status {
        model_index::Status::Refused(number) => {
            search_answer::refused(number, told, reasons, violated, unknowns, incompletes)
        }
        model_index::Status::Read => admitted(
            file,
            x.index,
            queue,
            records,
            runs,
            output,
            told,
            reasons,
            violated,
            unknowns,
            incompletes,
        ),
    }
}

// ---- the answer as one value

// The search for a violation of a model file, with lent areas of any size.
pub fn verify(
    file: &[u8],
    queue: &mut [u32],
    records: &mut [u32],
    runs: &mut [u32],
    output: &mut [u8],
) -> Verification
    ensures { Verifies file.now result (lent queue.old records.old runs.old)
        (lent queue.new records.new runs.new) output.old output.new }
{
    let mut told = [0u32; layout::VERDICT_REASON_WORDS];
    let mut reasons = [0u32; layout::SIMULATION_REASON_WORDS];
    let mut violated = [0u64; layout::VIOLATIONS];
    let mut unknowns = [0u32; layout::VERDICT_REASON_WORDS];
    let mut incompletes = [0u32; layout::INCOMPLETE_REASON_WORDS];
    let x = verify_lent(
        file,
        queue,
        records,
        runs,
        output,
        &mut told,
        &mut reasons,
        &mut violated,
        &mut unknowns,
        &mut incompletes,
    );
    search_answer::with_lists(x, &told, &reasons, &violated, &unknowns, &incompletes)
}
