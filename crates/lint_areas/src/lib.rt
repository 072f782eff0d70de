// The findings and interactions in two lent areas of words: 14 words for a finding, 3 for an interaction.
// The first insertion that its area has no place for is noted, and nothing is inserted after it.
#![tactic(auto)]

ghost use Rattle.std.specs.Prelude.{◌≡◌, ◌+◌, ◌*◌, ◌<◌, List, ◌∷◌, [], ℕ, length, replicate};
ghost use Rattle.lint_areas.specs.Areas.{board, pushes, finding, interaction, only_if};

// How many entries each area holds, and 45 or 46 after the first that found no place, else 0.
#[derive(Clone, Copy)]
pub struct Out {
    pub findings: usize,
    pub interactions: usize,
    pub refusal: u32,
}

// A finding more.
pub fn push_finding(findings: &mut [u32], o: Out, words: [u32; 14]) -> Out
    ensures { (i : List ℕ) → board findings.new i result ≡ pushes (finding words ∷ []) (board findings.old i o) }
{
    if o.refusal != 0 {
        return o;
    }
    let n = o.findings;
    if findings.len() / 14 <= n {
        return Out {
            findings: n,
            interactions: o.interactions,
            refusal: 45,
        };
    }
    areas::put(findings, n * 14, &words);
    Out {
        findings: n + 1,
        interactions: o.interactions,
        refusal: 0,
    }
}

// A finding more, if the test holds.
pub fn push_if(findings: &mut [u32], o: Out, test: bool, words: [u32; 14]) -> Out
    ensures { (i : List ℕ) → board findings.new i result ≡ pushes (only_if test (finding words)) (board findings.old i o) }
{
    if test {
        return push_finding(findings, o, words);
    }
    o
}

// An interaction more.
pub fn push_interaction(interactions: &mut [u32], o: Out, words: [u32; 3]) -> Out
    ensures { (f : List ℕ) → board f interactions.new result ≡ pushes (interaction words ∷ []) (board f interactions.old o) }
{
    if 0 < o.refusal {
        return o;
    }
    let n = o.interactions;
    if interactions.len() / 3 <= n {
        return Out {
            findings: o.findings,
            interactions: n,
            refusal: 46,
        };
    }
    areas::put(interactions, n * 3, &words);
    Out {
        findings: o.findings,
        interactions: n + 1,
        refusal: 0,
    }
}

// An interaction more, if the test holds.
pub fn interact_if(interactions: &mut [u32], o: Out, test: bool, words: [u32; 3]) -> Out
    ensures { (f : List ℕ) → board f interactions.new result ≡ pushes (only_if test (interaction words))
        (board f interactions.old o) }
{
    if test {
        return push_interaction(interactions, o, words);
    }
    o
}

// Both areas as zeros.
pub fn clear(findings: &mut [u32], interactions: &mut [u32])
    ensures { (findings.new ≡ replicate (length findings.old) 0)
        × (interactions.new ≡ replicate (length interactions.old) 0) }
{
    areas::clear_all(findings);
    areas::clear_all(interactions);
}
