// The literals of a set, written out.
ghost use Rattle.std.specs.Prelude.{◌≡◌, ℕ, ◌+◌, ◌*◌, ◌<◌, ◌≤◌, List, length, slice_set};
ghost use Rattle.sets.specs.Laid.{laid};
ghost use Rattle.sets.specs.Members.{members};
ghost use Rattle.sets.specs.Steps.{Written};

use super::LiteralSet;

impl LiteralSet {
    // Writes the codes in ascending order as far as the cells go, and answers how many the set has.
    pub fn codes(&self, out: &mut [u16]) -> usize
        ensures count { result ≡ length (members self.now.words) }
        ensures written { out.new ≡ laid (members self.now.words) out.old }
    {
        let mut n = 0;
        for (i, word) in self.words.iter().enumerate() {
            if *word != 0 {
                n = self.lay_word(i, out, n);
            }
        }
        n
    }

    // Writes the codes of word i from place n on, and answers the place after them.
    fn lay_word(&self, i: usize, out: &mut [u16], n: usize) -> usize
        requires word { i < 16 }
        requires few { n ≤ 64 * i }
        ensures { (cells : List ℕ) → Written self.now.words cells (64 * i) n out.old → Written self.now.words cells (64 * (i + 1)) result out.new }
    {
        let word = self.words[i];
        let first = 64 * (i as u16) + 2;
        let mut end = n;
        for b in 0..64u16 {
            if (word >> b) % 2 == 1 {
                put(out, end, first + b);
                end += 1;
            }
        }
        end
    }
}

// Writes a code at place n, if there is such a place.
fn put(out: &mut [u16], n: usize, code: u16)
    ensures { out.new ≡ slice_set out.old n code }
{
    if n < out.len() {
        out[n] = code;
    }
}
