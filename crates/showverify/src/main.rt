// Reads a model file on standard input and prints what `verify` says of it. One byte more than the limit is read, so that
// a longer file is refused as one. Three numbers as arguments say how many entries of queue, records and runs are lent;
// without them the areas are so large that no accepted model fills them. A further argument, or the only one, names the file
// to which the witness is written.
#![tactic(auto)]

fn main(rt: HostRuntime) -> std::io::Result<()> {
    let mut file = [0u8; 32769];
    let n = io::read_full(0, &mut file);
    let queue = arguments::area_entries(&rt, 1, layout::QUEUE)?;
    let records = arguments::area_entries(&rt, 2, layout::RECORDS)?;
    let runs = arguments::area_entries(&rt, 3, layout::RUNS)?;
    let mut output = [0u8; 32814];
    let mut out = io::large_buffer();
    let p = print_verify::print_verify(&mut out, 0, &file[..n], queue, records, runs, &mut output);
    show::flush(&out, p.next);
    if p.written != 0 {
        arguments::save_named(&rt, &output, p.written)?;
    }
    Ok(())
}
