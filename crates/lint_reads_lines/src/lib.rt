// The lines of what each automation reads and writes, in `lint`'s answer. The writers put texts behind the first n bytes of
// a lent area, as those of `show` do. f is the model file.
#![tactic(auto)]

ghost use Rattle.std.specs.Prelude.{◌≡◌, [], ◌∷◌, ◌+◌, ◌<◌, ltb, length, if◌then◌else◌};
ghost use Rattle.texts.specs.Lists.{each, through};
ghost use Rattle.lint_reach.specs.Sets.{members};
ghost use Rattle.show.specs.Lines.{quoted};
ghost use Rattle.show.specs.Writing.{Written};
ghost use Rattle.lint_words.specs.Lines.{quoted_list};
ghost use Rattle.lint_words.specs.Numbers.{placed_text, name_place};
ghost use Rattle.lint_reads_lines.specs.Numbers.{
  set_at,
  behind,
  lesser,
  least_from,
  ascending,
  is_read,
  strange_places,
  read_places,
  reads_text,
  writes_text,
  better,
  rule_from,
  next_from,
  touched_text,
};

use lint_entry::Report;
use lint_words::{name_place, put_members, put_name, wide};
use model_index::Index;
use model_parts::Section;

// The set of the i-th automation.
fn set_at(sets: [u32; 32], i: usize) -> u32
    ensures { result ≡ set_at sets i }
{
    if i < 32 {
        return sets[i];
    }
    0
}

// The lesser of a place and the best so far, if the place is not before `from`.
fn lesser(from: u32, place: u32, best: u32) -> u32
    ensures { result ≡ lesser from place best }
{
    if place < from {
        return best;
    }
    if place < best {
        return place;
    }
    best
}

// The least place from `from` on of a name in the set; 65,536 if there is none.
fn member_from(f: &[u8], section: Section, set: u32, from: u32) -> u32
    ensures { result ≡ least_from from (each (name_place f.now section) (members set)) }
{
    let mut best: u32 = 65536;
    for i in 0..32 {
        if lint_reach::has(set, i) {
            best = lesser(from, name_place(f, section, i), best);
        }
    }
    best
}

// Whether the i-th automation reads the k-th undeclared name.
fn is_read(r: Report, i: usize, k: usize) -> bool
    requires { k < 64 }
    ensures { result ≡ is_read r i k }
{
    if k < r.undeclared {
        return wide(r.readers[k]) == i;
    }
    false
}

// The best so far, or the least place from `from` on of an undeclared name that the i-th automation reads, if that is less.
fn stranger_from(r: Report, i: usize, from: u32, best: u32) -> u32
    ensures { result ≡ through (lesser from) (strange_places r i) best }
{
    let names = r.names;
    let mut least = best;
    for k in 0..64 {
        if is_read(r, i, k) {
            least = lesser(from, names[k], least);
        }
    }
    least
}

// The least place from `from` on of a name that the automation reads; 65,536 if there is none.
fn read_from(f: &[u8], entities: Section, r: Report, i: usize, from: u32) -> u32
    ensures { result ≡ least_from from (read_places f.now entities r i) }
{
    let sets = r.reads;
    let best = member_from(f, entities, set_at(sets, i), from);
    stranger_from(r, i, from, best)
}

fn behind(place: u32) -> u32
    ensures { result ≡ behind place }
{
    if 65535 < place {
        return 65536;
    }
    place + 1
}

// One more, if this is a place.
fn counted(place: u32, many: u64) -> u64
    requires { many < 97 }
    ensures { result ≡ (if ltb 65535 place then many else many + 1) }
{
    if 65535 < place {
        return many;
    }
    many + 1
}

// How many names the automation reads.
fn reads_count(f: &[u8], entities: Section, r: Report, i: usize) -> u64
    ensures { result ≡ length (ascending 97 0 (read_places f.now entities r i)) }
{
    let mut many: u64 = 0;
    let mut from: u32 = 0;
    for _ in 0..97u32 {
        let place = read_from(f, entities, r, i, from);
        many = counted(place, many);
        from = behind(place);
    }
    many
}

// A space and the text at the place, if it is one.
fn put_text_at(out: &mut [u8], n: usize, f: &[u8], place: u32) -> usize
    ensures { Written (if ltb 65535 place then [] else 32 ∷ quoted (placed_text f.now place)) out.old n out.new result }
{
    if 65535 < place {
        return n;
    }
    let m = show::put_byte(out, n, 32);
    show::put_quoted_text(out, m, f, texts::text_start(f, 6, place))
}

// `N "ENTITY"..` for the names that the automation reads, ascending.
fn put_reads(out: &mut [u8], n: usize, f: &[u8], entities: Section, r: Report, i: usize) -> usize
    ensures { Written (quoted_list (each (placed_text f.now) (ascending 97 0 (read_places f.now entities r i))))
        out.old n out.new result }
{
    let mut m = show::put_number(out, n, reads_count(f, entities, r, i));
    let mut from: u32 = 0;
    for _ in 0..97u32 {
        let place = read_from(f, entities, r, i, from);
        m = put_text_at(out, m, f, place);
        from = behind(place);
    }
    m
}

// The i-th automation or the one found so far: whose identifier is the first from the place `from` on; 32 is none.
fn better(f: &[u8], rules: Section, from: u32, i: usize, found: usize) -> usize
    ensures { result ≡ better f.now rules from i found }
{
    let place = name_place(f, rules, i);
    if place < from {
        return found;
    }
    if found == 32 {
        return i;
    }
    if place < name_place(f, rules, found) {
        return i;
    }
    found
}

// The automation whose identifier is the first from the place `from` on; 32 if there is none.
pub fn rule_from(f: &[u8], rules: Section, from: u32) -> usize
    ensures { result ≡ rule_from f.now rules from }
{
    let count = wide(rules.count);
    let mut found: usize = 32;
    for i in 0..count {
        found = better(f, rules, from, i, found);
    }
    found
}

// `reads "ID" N "ENTITY"..`
pub fn put_reads_line(
    out: &mut [u8],
    n: usize,
    f: &[u8],
    index: Index,
    r: Report,
    i: usize,
) -> usize
    ensures { Written (reads_text f.now index r i) out.old n out.new result }
{
    let a = show::put(out, n, b"reads ");
    let b = put_name(out, a, f, index.rules, i);
    let c = show::put_byte(out, b, 32);
    let d = put_reads(out, c, f, index.entities, r, i);
    show::put_byte(out, d, 10)
}

// `writes "ID" N "ENTITY"..`
pub fn put_writes_line(
    out: &mut [u8],
    n: usize,
    f: &[u8],
    index: Index,
    r: Report,
    i: usize,
) -> usize
    ensures { Written (writes_text f.now index r i) out.old n out.new result }
{
    let sets = r.writes;
    let a = show::put(out, n, b"writes ");
    let b = put_name(out, a, f, index.rules, i);
    let c = show::put_byte(out, b, 32);
    let d = put_members(out, c, f, index.entities, set_at(sets, i));
    show::put_byte(out, d, 10)
}

// What the automation whose identifier is the first from the place `from` on reads, or writes.
pub fn put_touched(
    out: &mut [u8],
    n: usize,
    f: &[u8],
    index: Index,
    r: Report,
    from: u32,
    writes: bool,
) -> usize
    ensures { Written (touched_text f.now index r from writes) out.old n out.new result }
{
    let i = rule_from(f, index.rules, from);
    if i == 32 {
        return n;
    }
    if writes {
        return put_writes_line(out, n, f, index, r, i);
    }
    put_reads_line(out, n, f, index, r, i)
}

// The place behind that identifier.
pub fn next_from(f: &[u8], index: Index, from: u32) -> u32
    ensures { result ≡ next_from f.now index.rules from }
{
    let rules = index.rules;
    let i = rule_from(f, rules, from);
    if i < 32 {
        return behind(name_place(f, rules, i));
    }
    65536
}
