// Marks at variables.
ghost use Rattle.std.specs.Prelude.{◌≡◌, ℕ, ◌<◌, true, false, length, slice_index_or, slice_set};

// Which of the variables 1 to 512 are marked.
#[derive(Drop)]
pub(super) struct Marks {
    marks: [bool; 513],
    ghost long: { length marks ≡ 513 },
}

impl Marks {
    // No variable is marked.
    pub(super) fn none() -> Marks
        ensures { (v : ℕ) → slice_index_or result.marks v false ≡ false }
    {
        Marks {
            marks: [false; 513],
        }
    }

    // Marks a variable.
    pub(super) fn mark(&mut self, v: u16)
        requires { v < 513 }
        ensures { self.new.marks ≡ slice_set self.old.marks v true }
    {
        self.marks[usize::from(v)] = true;
    }

    // Whether a variable is marked.
    pub(super) fn has(&self, v: u16) -> bool
        ensures { result ≡ slice_index_or self.now.marks v false }
    {
        self.marks.get(usize::from(v)).copied().unwrap_or(false)
    }
}
