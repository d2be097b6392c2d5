// The rules that a formula text can break, and the fault of a text.
ghost use Rattle.std.specs.Prelude.{◌≡◌, Some};
ghost use Rattle.grammar.specs.Fault.{number};
ghost use Rattle.grammar.specs.Printed.{rule_word, fault_text};

use std::error::Error;
use std::fmt;

// Each has the number under which it is reported.
#[derive(Clone, Copy, Debug, PartialEq, Eq)]
pub enum Rule {
    Spelling = 11,
    Header = 12,
    Size = 13,
    Binding = 14,
    Tally = 15,
}

// The first fault of a text: the rule that is broken, and the offset of the word that breaks it, or the text's length at its end.
#[derive(Clone, Copy, Debug, PartialEq, Eq)]
pub struct TextFault {
    pub rule: Rule,
    pub byte: usize,
}

impl Rule {
    // The number under which the rule is reported.
    pub fn number(self) -> usize
        ensures { result ≡ number self }
    {
        self as usize
    }
}

impl fmt::Display for Rule {
    ghost output = { λ r. Some (rule_word r) };

    fn fmt<W: fmt::Write>(&self, f: &mut fmt::Formatter<W>) -> fmt::Result {
        f.write_str(match self {
            Rule::Spelling => "spelling",
            Rule::Header => "header",
            Rule::Size => "size",
            Rule::Binding => "binding",
            Rule::Tally => "tally",
        })
    }
}

impl Error for Rule {}

impl fmt::Display for TextFault {
    ghost output = { λ f. Some (fault_text f) };

    fn fmt<W: fmt::Write>(&self, f: &mut fmt::Formatter<W>) -> fmt::Result {
        let TextFault { rule, byte } = *self;
        write!(f, "{rule} at byte {byte}")
    }
}

impl Error for TextFault {}
