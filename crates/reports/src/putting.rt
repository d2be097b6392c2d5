// The line of a report put by a pen.
ghost use Rattle.std.specs.Prelude.{[], ◌∷◌};
ghost use Rattle.writer.specs.Pen.{Put};
ghost use Rattle.reports.specs.Lines.{refuted_line, open_line, refused_line};

use writer::pen::Pen;

// Puts the line refuted line L lines K.
pub(crate) fn put_refuted(pen: &mut Pen<'_>, line: usize, lines: usize)
    ensures { Put (refuted_line line lines) pen.old pen.new }
{
    pen.put_all(b"refuted line ");
    pen.put_number(line);
    pen.put_all(b" lines ");
    pen.put_number(lines);
    put_feed(pen);
}

// Puts the line open lines K.
pub(crate) fn put_open(pen: &mut Pen<'_>, lines: usize)
    ensures { Put (open_line lines) pen.old pen.new }
{
    pen.put_all(b"open lines ");
    pen.put_number(lines);
    put_feed(pen);
}

// Puts the line refused N layer W byte B line K.
pub(crate) fn put_refused(pen: &mut Pen<'_>, number: usize, word: &[u8], byte: usize, lines: usize)
    ensures { Put (refused_line number word.now byte lines) pen.old pen.new }
{
    pen.put_all(b"refused ");
    pen.put_number(number);
    pen.put_all(b" layer ");
    pen.put_all(word);
    pen.put_all(b" byte ");
    pen.put_number(byte);
    pen.put_all(b" line ");
    pen.put_number(lines);
    put_feed(pen);
}

// Puts a line feed.
fn put_feed(pen: &mut Pen<'_>)
    ensures { Put (10 ∷ []) pen.old pen.new }
{
    pen.put(b'\n');
}
