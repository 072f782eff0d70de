// Reads of the model file in place, and of the table of words that the engine goes by (crate layout has its words).
#![tactic(auto)]

ghost use Rattle.std.specs.Prelude.{◌≡◌, ◌+◌, ◌*◌, ◌<◌, get_or};
ghost use Rattle.engine_fields.specs.Fields.{
  two,
  four,
  cap,
  name,
  stale,
  word,
  entity_of,
  text_position,
  about_rule,
  alone,
  note_reason,
  list_word,
};

use layout::Table;
use reasons::Reason;
use runs::Place;

// ---- the file

// The byte at a position, 0 past the end.
pub fn byte_at(f: &[u8], at: usize) -> u32
    ensures { (result ≡ get_or f.now at 0) × (result < 256) }
{
    texts::length_byte(f, at) as u32
}

pub fn two_at(f: &[u8], at: usize) -> u32
    ensures { (result ≡ two f.now at) × (result < 65536) }
{
    if at < f.len() {
        return byte_at(f, at) + 256 * byte_at(f, at + 1);
    }
    0
}

pub fn four_at(f: &[u8], at: usize) -> u32
    ensures { result ≡ four f.now at }
{
    if f.len() < 2 {
        return two_at(f, at);
    }
    if at < f.len() - 1 {
        return two_at(f, at) + 65536 * two_at(f, at + 2);
    }
    two_at(f, at)
}

// A position as a word.
pub fn capped(p: usize) -> u32
    ensures { result ≡ cap p }
{
    if 4294967295 < p {
        return 4294967295;
    }
    p as u32
}

// The words of a place in an action list.
pub fn list_word(position: u32, left: u32) -> u32
    requires { left < 65536 }
    ensures { result ≡ list_word position left }
{
    if 32767 < position {
        return runs::place_word(Place {
            position: 32767,
            left,
        });
    }
    runs::place_word(Place { position, left })
}

// ---- the table

// The name of an entity.
pub fn name_of(x: &Table, e: usize) -> u32
    requires { e < 32 }
    ensures { result ≡ name x.now e }
{
    x[16 + e]
}

// After how many seconds an entity's value is stale; 4294967295 for never.
pub fn stale_of(x: &Table, e: usize) -> u32
    requires { e < 32 }
    ensures { result ≡ stale x.now e }
{
    x[48 + e]
}

// A word of an automation.
pub fn rule_word(x: &Table, i: usize, k: usize) -> u32
    requires { (i < 32) × (k < 8) }
    ensures { result ≡ word x.now i k }
{
    x[80 + i * 8 + k]
}

// The entity with this name, or 32.
pub fn entity_of(x: &Table, id: u32) -> usize
    ensures { result ≡ entity_of x.now id }
{
    let n = bounds::at_most(x[layout::ENTITY_COUNT], 32);
    for e in 0..n {
        if name_of(x, e) == id {
            return e;
        }
    }
    32
}

// ---- reasons

// The position of the text at a place; that of the first text for a place past the last.
pub fn text_position(f: &[u8], place: u32) -> u32
    ensures { result ≡ text_position f.now place }
{
    if place < two_at(f, 4) {
        return capped(texts::text_start(f, 6, place));
    }
    6
}

// A reason about an automation.
pub fn about_rule(f: &[u8], x: &Table, i: usize, kind: u32) -> Reason
    requires { i < 32 }
    ensures { result ≡ about_rule f.now x.now i kind }
{
    Reason {
        kind,
        first: text_position(f, rule_word(x, i, layout::ID)),
        second: reasons::ABSENT,
        line: 0,
        column: 0,
    }
}

pub fn by_itself(kind: u32) -> Reason
    ensures { result ≡ alone kind }
{
    Reason {
        kind,
        first: reasons::ABSENT,
        second: reasons::ABSENT,
        line: 0,
        column: 0,
    }
}

// A note as a reason.
pub fn note_reason(f: &[u8], place: u32) -> Reason
    ensures { result ≡ note_reason f.now place }
{
    Reason {
        kind: reasons::NOTE,
        first: text_position(f, place),
        second: reasons::ABSENT,
        line: 0,
        column: 0,
    }
}
