// A clause made of lent cells, and its cells again.
ghost use Rattle.std.specs.Prelude.{◌≡◌, ◌≤◌, length, take};
ghost use Rattle.shelf.specs.Proper.{Proper, LongestFront};

use super::Clause;

// How many codes the longest front has that is a clause: variables from 1 to 512, each above the one before.
// A loop, since of a chain (each code zipped with the one before, and `position`) no proof is found of which place it answers.
fn proper_len(codes: &[u16]) -> usize
    ensures within { result ≤ length codes.now }
    ensures proper { ∥ Proper (take result codes.now) ∥₁ }
    ensures longest { LongestFront codes.now (take result codes.now) }
{
    let mut last: u16 = 0;
    for (i, code) in codes.iter().enumerate() {
        let variable = *code / 2;
        if variable <= last || variable > 512 {
            return i;
        }
        last = variable;
    }
    codes.len()
}

impl<'a> Clause<'a> {
    // The longest front of the codes that is a clause.
    pub fn front(codes: &'a [u16]) -> Clause<'a>
        ensures { LongestFront codes.now result.codes.now }
    {
        Clause {
            codes: &codes[..proper_len(codes)],
        }
    }

    // The codes of the clause.
    pub fn codes(self) -> &'a [u16]
        ensures { result.now ≡ self.entry.codes.now }
    {
        self.codes
    }
}
