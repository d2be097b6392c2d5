// The line that reports the fault of a text.
ghost use Rattle.std.specs.Prelude.{◌≡◌};
ghost use Rattle.grammar.specs.Fault.{number};
ghost use Rattle.writer.specs.Written.{refusal_line};

use crate::pen::Pen;
use crate::writable::Writable;
use grammar::{Rule, TextFault};

// The number under which a broken rule is reported.
pub fn rule_number(rule: Rule) -> usize
    ensures { result ≡ number rule }
{
    rule.number()
}

impl Writable for TextFault {
    ghost bytes = { refusal_line };

    fn put(&self, pen: &mut Pen<'_>) {
        pen.put_all(b"refused ");
        pen.put_number(rule_number(self.rule));
        pen.put_all(b" layer text byte ");
        pen.put_number(self.byte);
        pen.put_all(b" line 0\n");
    }
}
