// The words, names and messages of `lint`'s answer, which the writers of its lines share. The writers put texts behind the
// first n bytes of a lent area, as those of `show` do. f is the model file.
#![tactic(auto)]

ghost use Rattle.std.specs.Prelude.{◌≡◌, [], ◌∷◌, ◌≤◌, ◌<◌, if◌then◌else◌};
ghost use Rattle.texts.specs.Lists.{flat};
ghost use Rattle.texts.specs.Texts.{Text};
ghost use Rattle.texts.specs.Places.{text_at};
ghost use Rattle.reasons.specs.Reasons.{render};
ghost use Rattle.lint_spec.specs.Findings.{code_name, message};
ghost use Rattle.lint_reach.specs.Sets.{holds};
ghost use Rattle.show.specs.Lines.{quoted, escape};
ghost use Rattle.show.specs.Writing.{Written};
ghost use Rattle.lint_words.specs.Lines.{quoted_list};
ghost use Rattle.lint_words.specs.Numbers.{start_at, name_place, name_of, names_of, problem_of, certainty_of, tier_of};

use model_parts::Section;
use reasons::Reason;

pub fn wide(x: u32) -> usize
    ensures { result ≡ x }
{
    x as usize
}

pub fn long(x: u32) -> u64
    ensures { result ≡ x }
{
    x as u64
}

// ---- words

// `CODE`
pub fn put_code(out: &mut [u8], n: usize, code: u32) -> usize
    ensures { (x t : Text) → Written (code_name (problem_of x t code)) out.old n out.new result }
{
    match code {
        0 => show::put(out, n, b"unreachable_conditions"),
        1 => show::put(out, n, b"trigger_condition_mismatch"),
        2 => show::put(out, n, b"delayed_write"),
        3 => show::put(out, n, b"unreachable_branch"),
        4 => show::put(out, n, b"high_fanout"),
        5 => show::put(out, n, b"trigger_cycle"),
        6 => show::put(out, n, b"freshness_assumption"),
        7 => show::put(out, n, b"missing_safety_guard"),
        8 => show::put(out, n, b"opposing_writes"),
        _ => show::put(out, n, b"unsupported"),
    }
}

pub fn put_certainty(out: &mut [u8], n: usize, certainty: u32) -> usize
    ensures { Written (certainty_of certainty) out.old n out.new result }
{
    match certainty {
        0 => show::put(out, n, b"static"),
        1 => show::put(out, n, b"potential"),
        _ => show::put(out, n, b"unknown"),
    }
}

pub fn put_tier(out: &mut [u8], n: usize, tier: u32) -> usize
    ensures { Written (tier_of tier) out.old n out.new result }
{
    match tier {
        0 => show::put(out, n, b"observational"),
        1 => show::put(out, n, b"comfort"),
        2 => show::put(out, n, b"property"),
        3 => show::put(out, n, b"access_safety"),
        4 => show::put(out, n, b"accesssafety"),
        _ => show::put(out, n, b"unknown"),
    }
}

// ---- names

// The position of the i-th part of a section.
pub fn start_at(section: Section, i: usize) -> usize
    ensures { result ≡ start_at section i }
{
    if i < 100 {
        return section.starts[i];
    }
    0
}

// The place of its name: an automation's identifier, an entity's name.
pub fn name_place(f: &[u8], section: Section, i: usize) -> u32
    ensures { result ≡ name_place f.now section i }
{
    lint_walk::place_at(f, start_at(section, i))
}

// The name, quoted.
pub fn put_name(out: &mut [u8], n: usize, f: &[u8], section: Section, i: usize) -> usize
    ensures { Written (quoted (name_of f.now section i)) out.old n out.new result }
{
    let at = texts::text_start(f, 6, name_place(f, section, i));
    show::put_quoted_text(out, n, f, at)
}

// A text as it stands between quotes.
fn put_escaped(out: &mut [u8], n: usize, t: &[u8]) -> usize
    ensures { Written (flat escape t.now) out.old n out.new result }
{
    let mut m = n;
    for x in t {
        m = show::put_escaped(out, m, *x);
    }
    m
}

// The text at a position as it stands between quotes.
fn put_inner(out: &mut [u8], n: usize, f: &[u8], at: usize) -> usize
    ensures { Written (flat escape (text_at f.now at)) out.old n out.new result }
{
    if f.len() <= at {
        return n;
    }
    let from = at + 1;
    let end = from + texts::text_len(f, at);
    put_escaped(out, n, &f[from..end])
}

// The name of the i-th part as it stands between quotes.
fn put_inner_name(out: &mut [u8], n: usize, f: &[u8], section: Section, i: usize) -> usize
    ensures { Written (flat escape (name_of f.now section i)) out.old n out.new result }
{
    let at = texts::text_start(f, 6, name_place(f, section, i));
    put_inner(out, n, f, at)
}

// ---- messages

fn put_plain_message(out: &mut [u8], n: usize, code: u32) -> usize
    requires { code < 6 }
    ensures { (x t : Text) → Written (quoted (message (problem_of x t code))) out.old n out.new result }
{
    match code {
        0 => show::put_quoted(out, n, b"Admission conditions require contradictory states"),
        1 => show::put_quoted(
            out,
            n,
            b"Trigger target differs from admission conditions; same-time event ordering can matter",
        ),
        2 => show::put_quoted(
            out,
            n,
            b"Delayed writes may outlive trigger-time safety conditions; replay with changed state",
        ),
        3 => show::put_quoted(out, n, b"Choose branch has contradictory state predicates"),
        4 => show::put_quoted(out, n, b"More than eight literal entity targets"),
        _ => show::put_quoted(
            out,
            n,
            b"Cyclic trigger/write interaction; simulate to distinguish stable states from repeated toggling",
        ),
    }
}

// The message that names an entity.
fn put_entity_message(
    out: &mut [u8],
    n: usize,
    f: &[u8],
    entities: Section,
    code: u32,
    e: usize,
) -> usize
    requires { (6 ≤ code) × (code < 9) }
    ensures { (t : Text) → Written (quoted (message (problem_of (name_of f.now entities e) t code))) out.old n out.new
        result }
{
    if code == 6 {
        let a = show::put_byte(out, n, 34);
        let b = put_inner_name(out, a, f, entities, e);
        return show::put(out, b, b" has modeled freshness expiry\"");
    }
    if code == 7 {
        let c = show::put_byte(out, n, 34);
        let d = put_inner_name(out, c, f, entities, e);
        return show::put(out, d, b" write has no matching action-guard invariant\"");
    }
    let g = show::put(out, n, b"\"Opposing or toggling intents for ");
    let h = put_inner_name(out, g, f, entities, e);
    show::put(out, h, b"; conditions may make them mutually exclusive\"")
}

pub fn put_message(
    out: &mut [u8],
    n: usize,
    f: &[u8],
    entities: Section,
    code: u32,
    e: usize,
    r: Reason,
) -> usize
    ensures { Written (quoted (message (problem_of (name_of f.now entities e) (render f.now r) code))) out.old n
        out.new result }
{
    if code < 6 {
        return put_plain_message(out, n, code);
    }
    if code < 9 {
        return put_entity_message(out, n, f, entities, code, e);
    }
    show::put_quoted_reason(out, n, f, r)
}

// ---- sets

// A space and the name of the i-th part, if it is in the set.
fn put_member(out: &mut [u8], n: usize, f: &[u8], section: Section, set: u32, i: usize) -> usize
    requires { i < 32 }
    ensures { Written (if holds set i then 32 ∷ quoted (name_of f.now section i) else []) out.old n out.new result }
{
    if lint_reach::has(set, i) {
        let m = show::put_byte(out, n, 32);
        return put_name(out, m, f, section, i);
    }
    n
}

// `N "NAME"..` for the members of a set.
pub fn put_members(out: &mut [u8], n: usize, f: &[u8], section: Section, set: u32) -> usize
    ensures { Written (quoted_list (names_of f.now section set)) out.old n out.new result }
{
    let many = u32::count_ones(set);
    let mut m = show::put_number(out, n, long(many));
    for i in 0..32 {
        m = put_member(out, m, f, section, set, i);
    }
    m
}
