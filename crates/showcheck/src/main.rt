// Reads a model file on standard input and prints what `check` says of it. One byte more than the limit is read, so that a
// longer file is refused as one.
#![tactic(auto)]

fn main() {
    let mut file = [0u8; 32769];
    let n = io::read_full(0, &mut file);
    let mut out = io::large_buffer();
    let m = print_check::print_check(&mut out, 0, &file[..n]);
    show::flush(&out, m);
}
