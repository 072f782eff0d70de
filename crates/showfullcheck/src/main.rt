// Reads a model file on standard input and prints the whole answer of `check`. One byte more than the limit is read, so that
// a longer file is refused as one. Three numbers as arguments say how many entries of queue, records and runs are lent;
// without them the areas are so large that no accepted model fills them.
#![tactic(auto)]

fn main(rt: HostRuntime) -> std::io::Result<()> {
    let mut file = [0u8; 32769];
    let n = io::read_full(0, &mut file);
    let queue = arguments::entries(&rt, 1, layout::QUEUE)?;
    let records = arguments::entries(&rt, 2, layout::RECORDS)?;
    let runs = arguments::entries(&rt, 3, layout::RUNS)?;
    let mut out = io::large_buffer();
    let m = print_check::print_full_check(&mut out, 0, &file[..n], queue, records, runs);
    show::flush(&out, m);
    Ok(())
}
