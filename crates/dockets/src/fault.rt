// Why bytes are no line.
ghost use Rattle.std.specs.Prelude.{◌≡◌, Some};
ghost use Rattle.dockets.specs.Reading.{rule_number};
ghost use Rattle.dockets.specs.Printed.{rule_word, fault_text};

use std::error::Error;
use std::fmt;

// The map byte is none of the four, the docket ends inside the line, or the pairs make no card. Each has the number under which it is reported.
#[derive(Clone, Copy, Debug, PartialEq, Eq)]
pub enum LineRule {
    Map = 21,
    Short = 22,
    Card = 23,
}

impl LineRule {
    // The number under which the rule is reported.
    pub fn number(self) -> usize
        ensures { result ≡ rule_number self }
    {
        self as usize
    }

    // The fault of a byte that breaks the rule.
    pub(crate) fn at(self, byte: usize) -> LineFault
        ensures { result ≡ record { rule = self; byte = byte } }
    {
        LineFault { rule: self, byte }
    }
}

impl fmt::Display for LineRule {
    ghost output = { λ rule. Some (rule_word rule) };

    fn fmt<W: fmt::Write>(&self, f: &mut fmt::Formatter<W>) -> fmt::Result {
        f.write_str(match self {
            LineRule::Map => "map",
            LineRule::Short => "short",
            LineRule::Card => "card",
        })
    }
}

// The rule, and the byte where it is broken.
#[derive(Clone, Copy, Debug, PartialEq, Eq)]
pub struct LineFault {
    pub rule: LineRule,
    pub byte: usize,
}

impl fmt::Display for LineFault {
    ghost output = { λ fault. Some (fault_text fault) };

    fn fmt<W: fmt::Write>(&self, f: &mut fmt::Formatter<W>) -> fmt::Result {
        let LineFault { rule, byte } = *self;
        write!(f, "{rule} at byte {byte}")
    }
}

impl Error for LineFault {}
