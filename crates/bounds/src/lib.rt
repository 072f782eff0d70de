// The smaller of two numbers: the library's `min` by one definition, with one function for each width; and where a word
// becomes an index, or the other way round.
#![tactic(auto)]

ghost use Rattle.std.specs.Prelude.{◌≡◌, ◌≤◌};
ghost use Rattle.bounds.specs.Bounds.{at_most, AtMost};

pub fn min_usize(n: usize, most: usize) -> usize
    ensures { AtMost n most result }
{
    n.min(most)
}

pub fn min_u32(n: u32, most: u32) -> u32
    ensures { AtMost n most result }
{
    n.min(most)
}

// A word as an index or a count.
pub fn at_most(n: u32, most: usize) -> usize
    ensures { (result ≡ at_most n most) × (result ≤ most) }
{
    (n as usize).min(most)
}

// A place among the texts as a word.
pub fn place_of(number: u64) -> u32
    ensures { result ≡ at_most number 65535 }
{
    number.min(65535) as u32
}
