// The kinds of lines.
ghost use Rattle.std.specs.Prelude.{◌≡◌, MatchResult};
ghost use Rattle.dockets.specs.Kinds.{of_kind};
ghost use Rattle.dockets.specs.Reading.{kind_of, unknown};
ghost use Rattle.dockets.specs.declared.fault.LineRule.TheVariants.{Map};

use crate::LineRule;

// Told by its map byte; the numbers stand in `try_from` alone.
#[derive(Clone, Copy, Debug, PartialEq, Eq)]
pub(crate) enum Kind {
    Axiom,
    Reduction,
    Resolution,
    Symmetry,
}

impl TryFrom<u8> for Kind {
    type Error = LineRule;

    ghost try_from_gives = { λ map r. MatchResult r (λ kind. kind_of map ≡ of_kind kind) (λ rule. (rule ≡ Map) × (kind_of map ≡ unknown)) };

    fn try_from(map: u8) -> Result<Kind, LineRule> {
        match map {
            1 => Ok(Kind::Axiom),
            10 => Ok(Kind::Reduction),
            14 => Ok(Kind::Resolution),
            18 => Ok(Kind::Symmetry),
            _ => Err(LineRule::Map),
        }
    }
}
