// Reads a model file on standard input and prints what `lint` says of it. One byte more than the limit is read, so that a
// longer file is refused as one. Two numbers as arguments say how many findings and interactions the areas hold.
#![tactic(auto)]

fn main(rt: HostRuntime) -> std::io::Result<()> {
    let mut file = [0u8; 32769];
    let n = io::read_full(0, &mut file);
    let findings = arguments::entries(&rt, 1, print_lint::FINDINGS)?;
    let interactions = arguments::entries(&rt, 2, print_lint::INTERACTIONS)?;
    let mut out = io::large_buffer();
    let m = print_lint::print_lint(&mut out, 0, &file[..n], findings, interactions);
    show::flush(&out, m);
    Ok(())
}
