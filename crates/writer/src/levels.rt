// The prefix: a line for each level.
ghost use Rattle.std.specs.Prelude.{◌≡◌, slice_get, slice_index};
ghost use Rattle.std.specs.List.{range_with_len, flat_map};
ghost use Rattle.calculus.specs.Meaning.{quantifier_of};
ghost use Rattle.calculus.specs.Truth.{at_level};
ghost use Rattle.writer.specs.Pen.{Put};
ghost use Rattle.writer.specs.Written.{letter_byte, variable_text, block_line, greatest};

use crate::pen::Pen;
use formula::{Formula, Quantifier};

// The number of the levels.
fn depth<F: Formula>(f: &F) -> usize
    ensures { result ≡ greatest (F.meaning f.now).levels }
{
    (0..f.variable_count() + 1)
        .map(|v| usize::from(f.level(v)))
        .max()
        .unwrap_or(0)
}

// The first variable of level k.
fn first_variable<F: Formula>(f: &F, k: usize) -> Option<usize>
    ensures { result ≡ slice_get (at_level (F.meaning f.now) k) 0 }
{
    (1..f.variable_count() + 1).find(|v| usize::from(f.level(*v)) == k)
}

// The letter e or a of level k.
fn letter<F: Formula>(f: &F, k: usize) -> u8
    ensures { result ≡ letter_byte (quantifier_of (F.meaning f.now) (slice_index (at_level (F.meaning f.now) k) 0)) }
{
    match first_variable(f, k).and_then(|v| f.quantifier(v)) {
        Some(Quantifier::Exists) => b'e',
        _ => b'a',
    }
}

// Puts the variables of level k, in ascending order.
fn put_variables<F: Formula>(pen: &mut Pen<'_>, f: &F, k: usize)
    ensures { Put (flat_map variable_text (at_level (F.meaning f.now) k)) pen.old pen.new }
{
    // none of them stands before the first
    let first = first_variable(f, k).unwrap_or(1);
    for v in first..f.variable_count() + 1 {
        if usize::from(f.level(v)) == k {
            pen.put_space();
            pen.put_number(v);
        }
    }
}

// Puts the line of level k: its letter, its variables and 0.
fn put_block<F: Formula>(pen: &mut Pen<'_>, f: &F, k: usize)
    ensures { Put (block_line (F.meaning f.now) k) pen.old pen.new }
{
    pen.put(letter(f, k));
    put_variables(pen, f, k);
    pen.put_space();
    pen.put_end();
}

// Puts a line for each level, from the outermost on.
pub(crate) fn put_blocks<F: Formula>(pen: &mut Pen<'_>, f: &F)
    ensures { Put (flat_map (block_line (F.meaning f.now)) (range_with_len 1 (greatest (F.meaning f.now).levels))) pen.old pen.new }
{
    for k in 1..=depth(f) {
        put_block(pen, f, k);
    }
}
