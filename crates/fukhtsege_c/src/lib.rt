// The entries for C (include/fukhtsege.h), as symbols of a static library: each calls the function of its name in the crate
// fukhtsege, and promises the same.
#![tactic(auto)]

ghost use Rattle.std.specs.Prelude.{◌≡◌};
ghost use Rattle.engine_entry.specs.Contract.{lent};
ghost use Rattle.lint_spec.specs.Memory as lint;
ghost use Rattle.model_validate.specs.Contract.{validated};
ghost use Rattle.c_encoding.specs.Numbers.{validity_number};
ghost use Rattle.fukhtsege.specs.Contract.{ListsC, SimulatesC, ChecksC, VerifiesC, MinimizesC, LintsC, ConesC};

#[unsafe(no_mangle)]
pub extern "C" fn fukhtsege_validate(file: &[u8]) -> u32
    ensures { result ≡ validity_number (validated file.now) }
{
    fukhtsege::fukhtsege_validate(file)
}

#[unsafe(no_mangle)]
pub extern "C" fn fukhtsege_unsupported(file: &[u8], answer: &mut [u64]) -> u32
    ensures { ListsC file.now result answer.old answer.new }
{
    fukhtsege::fukhtsege_unsupported(file, answer)
}

#[unsafe(no_mangle)]
pub extern "C" fn fukhtsege_simulate(
    file: &[u8],
    queue: &mut [u32],
    records: &mut [u32],
    runs: &mut [u32],
    answer: &mut [u64],
) -> u32
    ensures { SimulatesC file.now result (lent queue.old records.old runs.old)
        (lent queue.new records.new runs.new) answer.old answer.new }
{
    fukhtsege::fukhtsege_simulate(file, queue, records, runs, answer)
}

#[unsafe(no_mangle)]
pub extern "C" fn fukhtsege_check(
    file: &[u8],
    queue: &mut [u32],
    records: &mut [u32],
    runs: &mut [u32],
    answer: &mut [u64],
) -> u32
    ensures { ChecksC file.now result (lent queue.old records.old runs.old)
        (lent queue.new records.new runs.new) answer.old answer.new }
{
    fukhtsege::fukhtsege_check(file, queue, records, runs, answer)
}

#[unsafe(no_mangle)]
pub extern "C" fn fukhtsege_verify(
    file: &[u8],
    queue: &mut [u32],
    records: &mut [u32],
    runs: &mut [u32],
    output: &mut [u8],
    answer: &mut [u64],
) -> u32
    ensures { VerifiesC file.now result (lent queue.old records.old runs.old)
        (lent queue.new records.new runs.new) output.old output.new answer.old answer.new }
{
    fukhtsege::fukhtsege_verify(file, queue, records, runs, output, answer)
}

#[unsafe(no_mangle)]
pub extern "C" fn fukhtsege_minimize(
    file: &[u8],
    queue: &mut [u32],
    records: &mut [u32],
    runs: &mut [u32],
    output: &mut [u8],
    answer: &mut [u64],
) -> u32
    ensures { MinimizesC file.now result (lent queue.old records.old runs.old)
        (lent queue.new records.new runs.new) output.old output.new answer.old answer.new }
{
    fukhtsege::fukhtsege_minimize(file, queue, records, runs, output, answer)
}

#[unsafe(no_mangle)]
pub extern "C" fn fukhtsege_lint(
    file: &[u8],
    findings: &mut [u32],
    interactions: &mut [u32],
    answer: &mut [u64],
) -> u32
    ensures { LintsC file.now result (lint.lent findings.old interactions.old)
        (lint.lent findings.new interactions.new) answer.old answer.new }
{
    fukhtsege::fukhtsege_lint(file, findings, interactions, answer)
}

#[unsafe(no_mangle)]
pub extern "C" fn fukhtsege_cone(file: &[u8], answer: &mut [u64]) -> u32
    ensures { ConesC file.now result answer.old answer.new }
{
    fukhtsege::fukhtsege_cone(file, answer)
}
