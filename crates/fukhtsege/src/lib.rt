// The entries for C (include/fukhtsege.h; the crate fukhtsege_c has their symbols): the answer goes as numbers into a lent
// slice, and the result is 0, the refusal's number, or 47 if that slice is too short; then nothing else happens.
#![tactic(auto)]

ghost use Rattle.std.specs.Prelude.{◌≡◌};
ghost use Rattle.engine_entry.specs.Contract.{lent};
ghost use Rattle.lint_spec.specs.Memory as lint;
ghost use Rattle.model_validate.specs.Contract.{validated};
ghost use Rattle.c_encoding.specs.Numbers.{validity_number};
ghost use Rattle.fukhtsege.specs.Contract.{ListsC, SimulatesC, ChecksC, VerifiesC, MinimizesC, LintsC, ConesC};

use model_validate::Validity;

// The result if the answer is too short.
pub const SHORT_ANSWER: u32 = 47;

// ---- validate

pub fn fukhtsege_validate(file: &[u8]) -> u32
    ensures { result ≡ validity_number (validated file.now) }
{
    let v = model_validate::validate(file);
    match v {
        Validity::Accepted => 0,
        Validity::Refused(number) => number,
    }
}

// ---- unsupported

pub fn fukhtsege_unsupported(file: &[u8], answer: &mut [u64]) -> u32
    ensures { ListsC file.now result answer.old answer.new }
{
    if answer.len() < 1504 {
        return SHORT_ANSWER;
    }
    let r = engine_entry::unsupported(file);
    c_encoding::put_notes(answer, r);
    r.refused
}

// ---- simulate

pub fn fukhtsege_simulate(
    file: &[u8],
    queue: &mut [u32],
    records: &mut [u32],
    runs: &mut [u32],
    answer: &mut [u64],
) -> u32
    ensures { SimulatesC file.now result (lent queue.old records.old runs.old)
        (lent queue.new records.new runs.new) answer.old answer.new }
{
    if answer.len() < 1540 {
        return SHORT_ANSWER;
    }
    let mut reasons = [0u32; layout::SIMULATION_REASON_WORDS];
    let s = engine_entry::simulate_lent(file, queue, records, runs, &mut reasons);
    c_encoding::put_simulation(answer, 0, s, &reasons);
    s.refused
}

// ---- check

pub fn fukhtsege_check(
    file: &[u8],
    queue: &mut [u32],
    records: &mut [u32],
    runs: &mut [u32],
    answer: &mut [u64],
) -> u32
    ensures { ChecksC file.now result (lent queue.old records.old runs.old)
        (lent queue.new records.new runs.new) answer.old answer.new }
{
    if answer.len() < 4000 {
        return SHORT_ANSWER;
    }
    let mut reasons = [0u32; layout::SIMULATION_REASON_WORDS];
    let mut violated = [0u64; layout::VIOLATIONS];
    let mut unknowns = [0u32; layout::VERDICT_REASON_WORDS];
    let mut incompletes = [0u32; layout::INCOMPLETE_REASON_WORDS];
    let j = checker_entry::check_lent(
        file,
        queue,
        records,
        runs,
        &mut reasons,
        &mut violated,
        &mut unknowns,
        &mut incompletes,
    );
    c_encoding::put_check(answer, 0, j, &reasons, &violated, &unknowns, &incompletes);
    let s = j.simulation;
    s.refused
}

// ---- verify

pub fn fukhtsege_verify(
    file: &[u8],
    queue: &mut [u32],
    records: &mut [u32],
    runs: &mut [u32],
    output: &mut [u8],
    answer: &mut [u64],
) -> u32
    ensures { VerifiesC file.now result (lent queue.old records.old runs.old)
        (lent queue.new records.new runs.new) output.old output.new answer.old answer.new }
{
    if answer.len() < 6076 {
        return SHORT_ANSWER;
    }
    let mut told = [0u32; layout::VERDICT_REASON_WORDS];
    let mut reasons = [0u32; layout::SIMULATION_REASON_WORDS];
    let mut violated = [0u64; layout::VIOLATIONS];
    let mut unknowns = [0u32; layout::VERDICT_REASON_WORDS];
    let mut incompletes = [0u32; layout::INCOMPLETE_REASON_WORDS];
    let v = search_entry::verify_lent(
        file,
        queue,
        records,
        runs,
        output,
        &mut told,
        &mut reasons,
        &mut violated,
        &mut unknowns,
        &mut incompletes,
    );
    c_encoding::put_verification(
        answer,
        v,
        &told,
        &reasons,
        &violated,
        &unknowns,
        &incompletes,
    );
    let status = v.status;
    c_encoding::refusal_of(status)
}

// ---- minimize

pub fn fukhtsege_minimize(
    file: &[u8],
    queue: &mut [u32],
    records: &mut [u32],
    runs: &mut [u32],
    output: &mut [u8],
    answer: &mut [u64],
) -> u32
    ensures { MinimizesC file.now result (lent queue.old records.old runs.old)
        (lent queue.new records.new runs.new) output.old output.new answer.old answer.new }
{
    if answer.len() < 4408 {
        return SHORT_ANSWER;
    }
    let m = reduce_entry::minimize(file, queue, records, runs, output);
    c_encoding::put_minimized(answer, m);
    m.refused
}

// ---- lint

pub fn fukhtsege_lint(
    file: &[u8],
    findings: &mut [u32],
    interactions: &mut [u32],
    answer: &mut [u64],
) -> u32
    ensures { LintsC file.now result (lint.lent findings.old interactions.old)
        (lint.lent findings.new interactions.new) answer.old answer.new }
{
    if answer.len() < 228 {
        return SHORT_ANSWER;
    }
    let r = lint_entry::lint(file, findings, interactions);
    c_encoding::put_report(answer, r);
    r.refused
}

// ---- cone

pub fn fukhtsege_cone(file: &[u8], answer: &mut [u64]) -> u32
    ensures { ConesC file.now result answer.old answer.new }
{
    if answer.len() < 68 {
        return SHORT_ANSWER;
    }
    let r = cone_entry::cone(file);
    c_encoding::put_cone(answer, r);
    r.refused
}
