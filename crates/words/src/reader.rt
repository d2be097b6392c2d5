// A text that is read word by word.
ghost use Rattle.std.specs.Prelude.{◌≤◌, length};

mod read;

// It has no model: one that shows the words that are left would not tell that they are those of the text.
#[derive(Drop)]
pub struct Words<'a> {
    text: &'a [u8],
    at: usize,
    ghost within: { at ≤ length text.now },
}
