// What a search chooses from, a model's inputs and gaps, and the events that it has placed so far.
#![tactic(auto)]

ghost use Rattle.std.specs.Prelude.{◌≡◌, ◌≤◌, ◌<◌, length};
ghost use Rattle.search_inputs.specs.Inputs.{input_word, AlphabetOf, gap_word, GapsOf, last_m, Placing};

use model_index::Index;

// Three words an input: a kind (0 sets, 1 restarts, 2 reloads), the place of an entity and the place of a value.
#[derive(Clone, Copy)]
pub struct Alphabet {
    pub count: usize,
    pub words: [u32; 36],
}

#[derive(Clone, Copy)]
pub struct Gaps {
    pub count: usize,
    pub seconds: [u32; 4],
}

// Four words an event: a second, then the input's words.
#[derive(Clone, Copy)]
pub struct Placed {
    pub count: usize,
    pub words: [u32; 20],
}

// ---- the inputs

// A word of the first twelve inputs.
fn input_word(s: &[u8], index: Index, k: usize) -> u32
    requires { k < 36 }
    ensures { result ≡ input_word s.now index k }
{
    let alphabet = index.alphabet;
    let count = alphabet.count as usize;
    if k / 3 < count {
        let p = engine_fields::capped(alphabet.starts[k / 3]) as usize;
        return engine_inputs::input_part(s, p, k % 3);
    }
    0
}

// The first twelve inputs of the alphabet.
pub fn alphabet_of(s: &[u8], index: Index) -> Alphabet
    ensures { AlphabetOf s.now index result }
{
    let alphabet = index.alphabet;
    let count = bounds::at_most(alphabet.count, 12);
    let mut words = [0u32; 36];
    for k in 0..36 {
        words[k] = input_word(s, index, k);
    }
    Alphabet { count, words }
}

// ---- the gaps

fn gap_word(s: &[u8], index: Index, k: usize) -> u32
    requires { k < 4 }
    ensures { result ≡ gap_word s.now index k }
{
    let gaps = index.gaps;
    let count = gaps.count as usize;
    if k < count {
        let p = engine_fields::capped(gaps.starts[k]) as usize;
        return engine_fields::four_at(s, p);
    }
    0
}

// The first four gaps.
pub fn gaps_of(s: &[u8], index: Index) -> Gaps
    ensures { GapsOf s.now index result }
{
    let gaps = index.gaps;
    let count = bounds::at_most(gaps.count, 4);
    let mut seconds = [0u32; 4];
    for k in 0..4 {
        seconds[k] = gap_word(s, index, k);
    }
    Gaps { count, seconds }
}

// ---- the events placed so far

// The second of the last event, 0 if there is none.
pub fn last_at(placed: Placed) -> u32
    requires { placed.count ≤ 5 }
    ensures { result ≡ last_m placed }
{
    let n = placed.count;
    if n == 0 {
        return 0;
    }
    let words = placed.words;
    words[(n - 1) * 4]
}

// One event more: the j-th input of the alphabet at a second.
pub fn place(placed: Placed, at: u32, alphabet: Alphabet, j: usize) -> Placed
    requires { (placed.count < 5) × ((length placed.words ≡ 20) × (j < 12)) }
    ensures { Placing placed at alphabet j result }
{
    let n = placed.count;
    let from = alphabet.words;
    let w = [at, from[j * 3], from[j * 3 + 1], from[j * 3 + 2]];
    let mut words = placed.words;
    areas::put(&mut words, n * 4, &w);
    Placed {
        count: n + 1,
        words,
    }
}
