// The lines of `check`, written behind the first n bytes of a lent area as the writers of `show` do. f is the model file.
// A violation comes as eight numbers, a reason as five words.
#![tactic(auto)]

ghost use Rattle.std.specs.Prelude.{◌≡◌, ◌+◌, ◌*◌, ◌≤◌, length, drop};
ghost use Rattle.reasons.specs.Reasons.{render};
ghost use Rattle.reasons.specs.Lists.{reason_of};
ghost use Rattle.record_lines.specs.Lines.{placed_if};
ghost use Rattle.checker_spec.specs.Judge.{message, deadline_missed};
ghost use Rattle.show.specs.Lines.{quoted};
ghost use Rattle.show.specs.Writing.{Written};
ghost use Rattle.check_lines.specs.Lines.{moment, bare_violated, full_violated, bare_reason, full_reason};
ghost use Rattle.check_lines.specs.Numbers.{violated_of, placed_text, failure_of, source_of, violation_of};

// The eight numbers of a violation: the place of the invariant's identifier among the texts, the second, the record's index,
// the failure (1 prohibited state, 2 guard, 3 transition, 4 deadline), the deadline; 1, line and column of the source, or
// zeros.
#[derive(Clone, Copy)]
pub struct Violated {
    pub place: u64,
    pub second: u64,
    pub index: u64,
    pub failure: u64,
    pub deadline: u64,
    pub sourced: u64,
    pub line: u64,
    pub column: u64,
}

// The violation at k of a list.
pub fn violated_at(a: &[u64], k: usize) -> Violated
    requires { k * 8 + 8 ≤ length a.now }
    ensures { result ≡ violated_of (drop (k * 8) a.now) }
{
    let at = k * 8;
    Violated {
        place: a[at],
        second: a[at + 1],
        index: a[at + 2],
        failure: a[at + 3],
        deadline: a[at + 4],
        sourced: a[at + 5],
        line: a[at + 6],
        column: a[at + 7],
    }
}

// ---- the parts of a violation's line

fn put_identifier(out: &mut [u8], n: usize, f: &[u8], place: u64) -> usize
    ensures { Written (placed_text f.now place) out.old n out.new result }
{
    let at = texts::text_start(f, 6, bounds::place_of(place));
    show::put_text(out, n, f, at)
}

fn put_quoted_identifier(out: &mut [u8], n: usize, f: &[u8], place: u64) -> usize
    ensures { Written (quoted (placed_text f.now place)) out.old n out.new result }
{
    let at = texts::text_start(f, 6, bounds::place_of(place));
    show::put_quoted_text(out, n, f, at)
}

fn put_moment(out: &mut [u8], n: usize, second: u64, index: u64) -> usize
    ensures { Written (moment second index) out.old n out.new result }
{
    let a = show::put_byte(out, n, 32);
    let b = show::put_number(out, a, second);
    let c = show::put_byte(out, b, 32);
    let d = show::put_number(out, c, index);
    show::put_byte(out, d, 32)
}

// LINE:COLUMN, or `-`.
fn put_origin(out: &mut [u8], n: usize, sourced: u64, line: u64, column: u64) -> usize
    ensures { Written (placed_if (source_of sourced line column)) out.old n out.new result }
{
    if sourced == 0 {
        return show::put_byte(out, n, 45);
    }
    let a = show::put_number(out, n, line);
    let b = show::put_byte(out, a, 58);
    show::put_number(out, b, column)
}

fn put_deadline(out: &mut [u8], n: usize, deadline: u64) -> usize
    ensures { Written (quoted (message (deadline_missed deadline))) out.old n out.new result }
{
    let a = show::put(out, n, b"\"response deadline ");
    let b = show::put_number(out, a, deadline);
    show::put(out, b, b" missed\"")
}

// The message of a failure, quoted.
fn put_message(out: &mut [u8], n: usize, failure: u64, deadline: u64) -> usize
    ensures { Written (quoted (message (failure_of failure deadline))) out.old n out.new result }
{
    match failure {
        1 => show::put_quoted(out, n, b"prohibited state reached"),
        2 => show::put_quoted(out, n, b"action guard violated"),
        3 => show::put_quoted(out, n, b"forbidden transition"),
        _ => put_deadline(out, n, deadline),
    }
}

// ---- a violation's line

// `violated ID SECOND INDEX SOURCE`
pub fn put_bare_violated(out: &mut [u8], n: usize, f: &[u8], v: Violated) -> usize
    ensures { Written (bare_violated (violation_of f.now v)) out.old n out.new result }
{
    let a = show::put(out, n, b"violated ");
    let b = put_identifier(out, a, f, v.place);
    let c = put_moment(out, b, v.second, v.index);
    let d = put_origin(out, c, v.sourced, v.line, v.column);
    show::put_byte(out, d, 10)
}

// `violated "ID" SECOND INDEX SOURCE "MESSAGE"`
pub fn put_full_violated(out: &mut [u8], n: usize, f: &[u8], v: Violated) -> usize
    ensures { Written (full_violated (violation_of f.now v)) out.old n out.new result }
{
    let a = show::put(out, n, b"violated ");
    let b = put_quoted_identifier(out, a, f, v.place);
    let c = put_moment(out, b, v.second, v.index);
    let d = put_origin(out, c, v.sourced, v.line, v.column);
    let e = show::put_byte(out, d, 32);
    let g = put_message(out, e, v.failure, v.deadline);
    show::put_byte(out, g, 10)
}

// ---- a reason's line

// A word and the reason at i of a list of reasons, bare.
pub fn put_bare_reason(
    out: &mut [u8],
    n: usize,
    word: &[u8],
    f: &[u8],
    a: &[u32],
    i: usize,
) -> usize
    requires { i * 5 + 5 ≤ length a.now }
    ensures { Written (bare_reason word.now (render f.now (reason_of (drop (i * 5) a.now)))) out.old n
        out.new result }
{
    let r = reasons::get(a, i);
    let j = show::put(out, n, word);
    let k = show::put_byte(out, j, 32);
    let l = show::put_reason(out, k, f, r);
    show::put_byte(out, l, 10)
}

// The same, the reason quoted.
pub fn put_full_reason(
    out: &mut [u8],
    n: usize,
    word: &[u8],
    f: &[u8],
    a: &[u32],
    i: usize,
) -> usize
    requires { i * 5 + 5 ≤ length a.now }
    ensures { Written (full_reason word.now (render f.now (reason_of (drop (i * 5) a.now)))) out.old n
        out.new result }
{
    let r = reasons::get(a, i);
    let j = show::put(out, n, word);
    let k = show::put_byte(out, j, 32);
    let l = show::put_quoted_reason(out, k, f, r);
    show::put_byte(out, l, 10)
}

// ---- printing: lines behind the first n bytes of `out`, which goes to standard output first where a line may not fit.
// The answer is where the next text goes; whoever printed last flushes.

// Bare texts, or quoted texts and messages.
#[derive(Clone, Copy)]
pub enum Form {
    Bare,
    Full,
}

fn print_violated(out: &mut [u8], n: usize, form: Form, f: &[u8], a: &[u64], k: usize) -> usize
    requires { k * 8 + 8 ≤ length a.now }
{
    let m = show::room(out, n, show::LINE);
    let v = violated_at(a, k);
    match form {
        Form::Bare => put_bare_violated(out, m, f, v),
        Form::Full => put_full_violated(out, m, f, v),
    }
}

// The first `count` violations of a list, or as many as it has room for.
pub fn print_violations(
    out: &mut [u8],
    n: usize,
    form: Form,
    f: &[u8],
    a: &[u64],
    count: usize,
) -> usize {
    let many = count.min(a.len() / 8);
    let mut m = n;
    for k in 0..many {
        m = print_violated(out, m, form, f, a, k);
    }
    m
}

fn print_reason(
    out: &mut [u8],
    n: usize,
    form: Form,
    word: &[u8],
    f: &[u8],
    a: &[u32],
    i: usize,
) -> usize
    requires { i * 5 + 5 ≤ length a.now }
{
    let m = show::room(out, n, show::LINE);
    match form {
        Form::Bare => put_bare_reason(out, m, word, f, a, i),
        Form::Full => put_full_reason(out, m, word, f, a, i),
    }
}

// The first `count` reasons of a list behind a word, or as many as it has room for.
pub fn print_reasons(
    out: &mut [u8],
    n: usize,
    form: Form,
    word: &[u8],
    f: &[u8],
    a: &[u32],
    count: usize,
) -> usize {
    let many = count.min(a.len() / 5);
    let mut m = n;
    for i in 0..many {
        m = print_reason(out, m, form, word, f, a, i);
    }
    m
}
