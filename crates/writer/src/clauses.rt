// The clauses: a line for each.
ghost use Rattle.std.specs.List.{flat_map};
ghost use Rattle.calculus.specs.Meaning.{clause_of};
ghost use Rattle.writer.specs.Pen.{Put};
ghost use Rattle.writer.specs.Written.{sign, literal_text, clause_line};

use crate::pen::Pen;
use formula::Formula;

// Puts the minus of a negated literal.
fn put_sign(pen: &mut Pen<'_>, literal: u16)
    ensures { Put (sign literal) pen.old pen.new }
{
    pen.put_all(if literal % 2 == 0 { b"" } else { b"-" });
}

// Puts a literal and a space.
fn put_literal(pen: &mut Pen<'_>, literal: u16)
    ensures { Put (literal_text literal) pen.old pen.new }
{
    put_sign(pen, literal);
    pen.put_number(usize::from(literal / 2));
    pen.put_space();
}

// Puts the literals of clause j.
fn put_literals<F: Formula>(pen: &mut Pen<'_>, f: &F, j: usize)
    ensures { Put (flat_map literal_text (clause_of (F.meaning f.now) j)) pen.old pen.new }
{
    for i in 0..f.clause_len(j) {
        put_literal(pen, f.literal(j, i));
    }
}

// Puts a line for each clause: its literals and 0.
pub(crate) fn put_clauses<F: Formula>(pen: &mut Pen<'_>, f: &F)
    ensures { Put (flat_map clause_line (F.meaning f.now).clauses) pen.old pen.new }
{
    for j in 0..f.clause_count() {
        put_literals(pen, f, j);
        pen.put_end();
    }
}
