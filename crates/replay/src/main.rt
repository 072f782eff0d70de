// Replays stored batches of model files: for each model its number and the lines that the entry's program prints.
// A batch holds for each model its length as a u32, little-endian, and its bytes. In a batch with sizes four numbers stand
// ahead of these bytes, and the length counts them too. A new entry gets a variant of Entry, an arm in print_lines and a
// line in main.
#![tactic(auto)]

ghost use Rattle.replay.specs.Reading.{Within};

use std::fs::{File, Files};
use std::os::fd::AsRawFd;

// What is asked of the models of a batch.
#[derive(Clone, Copy)]
enum Entry {
    Validate,
    Unsupported,
    Simulate,
    Fullcheck,
    Lint,
    Verify,
    Minimize,
}

// What stands next in a batch: a model of so many bytes, the end, or no whole model.
#[derive(Clone, Copy)]
enum Next {
    Model(usize),
    End,
    Broken,
}

// Reads the next model of a batch to the start of `file`.
fn read_model(fd: i32, file: &mut [u8]) -> Next
    ensures { Within result file.new }
{
    let mut four = [0u8; 4];
    let got = io::read_full(fd, &mut four);
    if got == 0 {
        return Next::End;
    }
    let Some((number, _)) = model_walk::u32_at(&four[..got], 0) else {
        return Next::Broken;
    };
    let size = number as usize;
    if file.len() < size {
        return Next::Broken;
    }
    if io::read_full(fd, &mut file[0..size]) < size {
        return Next::Broken;
    }
    Next::Model(size)
}

// How many entries the areas hold: queue, records and runs, or findings and interactions; and how many bytes the output.
#[derive(Clone, Copy)]
struct Sizes {
    first: u32,
    second: u32,
    third: u32,
    output: u32,
}

// More than any area holds: each is lent whole.
fn whole_areas() -> Sizes {
    Sizes {
        first: 4294967295,
        second: 4294967295,
        third: 4294967295,
        output: 4294967295,
    }
}

fn number_at(s: &[u8], at: usize) -> u32 {
    let Some((number, _)) = model_walk::u32_at(s, at) else {
        return 0;
    };
    number
}

fn sizes_of(s: &[u8]) -> Sizes {
    Sizes {
        first: number_at(s, 0),
        second: number_at(s, 4),
        third: number_at(s, 8),
        output: number_at(s, 12),
    }
}

// The lines of `verify` and of `minimize`; their files aren't kept.
fn print_verify(out: &mut [u8], n: usize, file: &[u8], sizes: Sizes) -> usize {
    let queue = bounds::at_most(sizes.first, layout::QUEUE);
    let records = bounds::at_most(sizes.second, layout::RECORDS);
    let runs = bounds::at_most(sizes.third, layout::RUNS);
    let size = bounds::at_most(sizes.output, 32814);
    let mut output = [0u8; 32814];
    let p = print_verify::print_verify(out, n, file, queue, records, runs, &mut output[0..size]);
    p.next
}

fn print_minimize(out: &mut [u8], n: usize, file: &[u8], sizes: Sizes) -> usize {
    let queue = bounds::at_most(sizes.first, layout::QUEUE);
    let records = bounds::at_most(sizes.second, layout::RECORDS);
    let runs = bounds::at_most(sizes.third, layout::RUNS);
    let size = bounds::at_most(sizes.output, 32814);
    let mut output = [0u8; 32814];
    let p = print_minimize::print_minimize(
        out,
        n,
        file,
        queue,
        records,
        runs,
        &mut output[0..size],
    );
    p.next
}

fn print_simulate(out: &mut [u8], n: usize, file: &[u8], sizes: Sizes) -> usize {
    let queue = bounds::at_most(sizes.first, layout::QUEUE);
    let records = bounds::at_most(sizes.second, layout::RECORDS);
    let runs = bounds::at_most(sizes.third, layout::RUNS);
    print_simulate::print_simulate(out, n, file, queue, records, runs)
}

fn print_full_check(out: &mut [u8], n: usize, file: &[u8], sizes: Sizes) -> usize {
    let queue = bounds::at_most(sizes.first, layout::QUEUE);
    let records = bounds::at_most(sizes.second, layout::RECORDS);
    let runs = bounds::at_most(sizes.third, layout::RUNS);
    print_check::print_full_check(out, n, file, queue, records, runs)
}

fn print_lint(out: &mut [u8], n: usize, file: &[u8], sizes: Sizes) -> usize {
    let findings = bounds::at_most(sizes.first, print_lint::FINDINGS);
    let interactions = bounds::at_most(sizes.second, print_lint::INTERACTIONS);
    print_lint::print_lint(out, n, file, findings, interactions)
}

// The lines of an entry's answer, behind the first n bytes of `out`; what doesn't fit there is printed before.
fn print_lines(entry: Entry, out: &mut [u8], n: usize, file: &[u8], sizes: Sizes) -> usize {
    match entry {
        Entry::Validate => print_validate::put_answer(out, n, file),
        Entry::Unsupported => print_simulate::print_unsupported(out, n, file),
        Entry::Simulate => print_simulate(out, n, file, sizes),
        Entry::Fullcheck => print_full_check(out, n, file, sizes),
        Entry::Lint => print_lint(out, n, file, sizes),
        Entry::Verify => print_verify(out, n, file, sizes),
        Entry::Minimize => print_minimize(out, n, file, sizes),
    }
}

fn print_answer(entry: Entry, k: u32, file: &[u8], sizes: Sizes) {
    let mut out = io::large_buffer();
    let n = show::put_model(&mut out, 0, k);
    let m = print_lines(entry, &mut out, n, file, sizes);
    show::flush(&out, m);
}

// A model of a batch, with its sizes ahead of it or without.
fn print_part(entry: Entry, sized: bool, k: u32, part: &[u8]) {
    if !sized {
        print_answer(entry, k, part, whole_areas());
        return;
    }
    if part.len() < 16 {
        io::write_all(1, b"sizes missing\n");
        return;
    }
    let sizes = sizes_of(part);
    print_answer(entry, k, &part[16..], sizes);
}

// The next model of a batch: whether there was one.
fn print_model(fd: i32, entry: Entry, sized: bool, k: u32) -> bool {
    let mut part = [0u8; 32785];
    let next = read_model(fd, &mut part[..]);
    match next {
        Next::Model(size) => {
            print_part(entry, sized, k, &part[0..size]);
            true
        }
        Next::End => false,
        Next::Broken => {
            io::write_all(1, b"batch broken\n");
            false
        }
    }
}

// The models of an open batch. No batch has as many as the loop allows.
fn print_models(fd: i32, entry: Entry, sized: bool) {
    for k in 0..4294967295 {
        if !print_model(fd, entry, sized, k) {
            return;
        }
    }
}

// A batch by its file name, behind a line with its entry.
fn replay<R: Files<File = File>>(rt: &R, name: &str, line: &[u8], entry: Entry, sized: bool) {
    io::write_all(1, line);
    match File::open(rt, name) {
        Ok(file) => print_models(file.as_raw_fd(), entry, sized),
        Err(_) => {
            io::write_all(1, b"batch missing\n");
        }
    }
}

fn replay_plain<R: Files<File = File>>(rt: &R) {
    replay(
        rt,
        "validate.batch",
        b"entry validate\n",
        Entry::Validate,
        false,
    );
    replay(
        rt,
        "boundaries.batch",
        b"entry validate boundaries\n",
        Entry::Validate,
        false,
    );
    replay(
        rt,
        "unsupported.batch",
        b"entry unsupported\n",
        Entry::Unsupported,
        false,
    );
    replay(
        rt,
        "simulate.batch",
        b"entry simulate\n",
        Entry::Simulate,
        false,
    );
    replay(
        rt,
        "fullcheck.batch",
        b"entry fullcheck\n",
        Entry::Fullcheck,
        false,
    );
    replay(rt, "lint.batch", b"entry lint\n", Entry::Lint, false);
    replay(rt, "verify.batch", b"entry verify\n", Entry::Verify, false);
    replay(
        rt,
        "minimize.batch",
        b"entry minimize\n",
        Entry::Minimize,
        false,
    );
}

// Models with windows of the day.
fn replay_windows<R: Files<File = File>>(rt: &R) {
    replay(
        rt,
        "validate-windows.batch",
        b"entry validate windows\n",
        Entry::Validate,
        false,
    );
    replay(
        rt,
        "simulate-windows.batch",
        b"entry simulate windows\n",
        Entry::Simulate,
        false,
    );
    replay(
        rt,
        "fullcheck-windows.batch",
        b"entry fullcheck windows\n",
        Entry::Fullcheck,
        false,
    );
    replay(
        rt,
        "lint-windows.batch",
        b"entry lint windows\n",
        Entry::Lint,
        false,
    );
    replay(
        rt,
        "verify-windows.batch",
        b"entry verify windows\n",
        Entry::Verify,
        false,
    );
    replay(
        rt,
        "minimize-windows.batch",
        b"entry minimize windows\n",
        Entry::Minimize,
        false,
    );
}

// With areas and outputs of given sizes, many of them too small.
fn replay_sized<R: Files<File = File>>(rt: &R) {
    replay(
        rt,
        "simulate-areas.batch",
        b"entry simulate areas\n",
        Entry::Simulate,
        true,
    );
    replay(
        rt,
        "fullcheck-areas.batch",
        b"entry fullcheck areas\n",
        Entry::Fullcheck,
        true,
    );
    replay(
        rt,
        "lint-areas.batch",
        b"entry lint areas\n",
        Entry::Lint,
        true,
    );
    replay(
        rt,
        "verify-areas.batch",
        b"entry verify areas\n",
        Entry::Verify,
        true,
    );
    replay(
        rt,
        "minimize-areas.batch",
        b"entry minimize areas\n",
        Entry::Minimize,
        true,
    );
}

fn main(rt: HostRuntime) {
    replay_plain(&rt);
    replay_windows(&rt);
    replay_sized(&rt);
}
