// The view of a range of addresses, document 01's "bench view": the part of the parameter words or of the memory words that
// stands there, lent on as it is and not copied.
#![tactic(auto)]

ghost use Rattle.view.specs.Part.{Shows, IsPart};

// The number of parameter words: addresses below it are theirs.
const PARAMETERS: usize = 32;

// The number of memory words.
const MEMORY: usize = 992;

// The words at the addresses from p up to q, q left out; else the empty part at the front of the parameter words.
pub fn view<'a>(parameters: &'a [u32], memory: &'a [u32], p: usize, q: usize) -> &'a [u32]
    ensures { Shows parameters.entry memory.entry p q result }
{
    if parameters.len() != PARAMETERS || memory.len() != MEMORY || q < p {
        return &parameters[..0]; // wrong buffer lengths, or reversed
    }
    if q <= PARAMETERS {
        return &parameters[p..q];
    }
    if p < PARAMETERS || PARAMETERS + MEMORY < q {
        return &parameters[..0]; // crossing 32, or past 1,024
    }
    &memory[p - PARAMETERS..q - PARAMETERS]
}
