// Sections whose parts ascend: the texts, and the entities by name.
#![tactic(auto)]

ghost use Rattle.std.specs.Prelude.{◌≡◌, ◌+◌, ◌&&◌};
ghost use Rattle.texts.specs.Texts.{eq_t};
ghost use Rattle.texts.specs.Places.{text_at};
ghost use Rattle.model_order.specs.Order.{
  fits,
  text_before,
  place_before,
  before,
  ascending_m,
  has,
  place_from,
  texts_m,
};

use model_parts::Part;
use model_walk::Walked;

fn text_fits(s: &[u8], p: usize) -> bool
    ensures { result ≡ fits s.now p }
{
    if s.len() <= p {
        return false;
    }
    let n = s[p] as usize;
    if s.len() - p <= n {
        return false;
    }
    true
}

// Whether the text at `a` comes before the text at `b`.
fn text_before(s: &[u8], a: usize, b: usize) -> bool
    ensures { result ≡ text_before s.now a b }
{
    if !text_fits(s, a) {
        return false;
    }
    if !text_fits(s, b) {
        return false;
    }
    let n = s[a] as usize;
    let m = s[b] as usize;
    let mut i: usize = 0;
    loop {
        if n <= i {
            return i < m;
        }
        if m <= i {
            return false;
        }
        let x = s[a + 1 + i];
        let y = s[b + 1 + i];
        if x < y {
            return true;
        }
        if y < x {
            return false;
        }
        i += 1;
    }
}

// Whether the text at `p` is the word.
fn text_is(s: &[u8], p: usize, word: &[u8]) -> bool
    ensures { result ≡ (fits s.now p && eq_t word.now (text_at s.now p)) }
{
    if !text_fits(s, p) {
        return false;
    }
    let n = s[p] as usize;
    let mut i: usize = 0;
    loop {
        if n <= i {
            return word.len() <= i;
        }
        if word.len() <= i {
            return false;
        }
        if word[i] != s[p + 1 + i] {
            return false;
        }
        i += 1;
    }
}

fn place_before(s: &[u8], a: usize, b: usize) -> bool
    ensures { result ≡ place_before s.now a b }
{
    let Some((x, _)) = model_walk::u16_at(s, a) else {
        return false;
    };
    let Some((y, _)) = model_walk::u16_at(s, b) else {
        return false;
    };
    x < y
}

fn precedes(s: &[u8], as_texts: bool, a: usize, b: usize) -> bool
    ensures { result ≡ before as_texts s.now a b }
{
    if as_texts {
        return text_before(s, a, b);
    }
    place_before(s, a, b)
}

// A section of texts or entities, each after the one before it.
pub fn ascending_at(s: &[u8], texts: u32, part: Part, as_texts: bool, at: usize) -> Walked
    ensures { result ≡ ascending_m texts part as_texts s.now at }
{
    let (count, start) = model_walk::u16_at(s, at)?;
    if count == 0 {
        return Some((start, 0));
    }
    let (next, _) = model_parts::part_at(s, texts, part, start, 0)?;
    let mut last = start;
    let mut p = next;
    for _ in 1..count {
        let (q, _) = model_parts::part_at(s, texts, part, p, 0)?;
        if !precedes(s, as_texts, last, p) {
            return None;
        }
        last = p;
        p = q;
    }
    Some((p, 0))
}

// Whether the word is a text of the section.
fn has(s: &[u8], word: &[u8], at: usize) -> bool
    ensures { result ≡ has word.now s.now at }
{
    let Some((count, start)) = model_walk::u16_at(s, at) else {
        return false;
    };
    let mut p = start;
    for _ in 0..count {
        let Some((q, _)) = model_parts::text_at(s, p, 0) else {
            return false;
        };
        if text_is(s, p, word) {
            return true;
        }
        p = q;
    }
    false
}

// The place of the word among the file's texts, of which there are `count`; `count` if it is none of them.
pub fn place_of(s: &[u8], word: &[u8], count: u32) -> u32
    ensures { result ≡ place_from count 0 word.now s.now 6 }
{
    let mut p: usize = 6;
    for place in 0..count {
        if text_is(s, p, word) {
            return place;
        }
        p = p + 1 + texts::length_byte(s, p);
    }
    count
}

// The section of texts: they ascend, and the four fixed texts are there.
pub fn texts_at(s: &[u8], at: usize) -> Walked
    ensures { result ≡ texts_m s.now at }
{
    if !has(s, b"on", at) {
        return None;
    }
    if !has(s, b"off", at) {
        return None;
    }
    if !has(s, b"unknown", at) {
        return None;
    }
    if !has(s, b"unavailable", at) {
        return None;
    }
    ascending_at(s, 0, Part::Text, true, at)
}
