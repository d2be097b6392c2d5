// A place in a docket, from which the bytes of a line are taken.
ghost use Rattle.std.specs.Prelude.{◌≡◌, ℕ, ◌+◌, ◌-◌, ◌*◌, ◌^◌, ◌<◌, ◌≤◌, [], ◌∷◌, length, take, drop, slice_index, IfOk, IfErr, OnOk, IsOk};
ghost use Rattle.dockets.specs.Kinds.{of_kind};
ghost use Rattle.dockets.specs.Fields.{pairs_from, whole_fields, CutOff};
ghost use Rattle.dockets.specs.Heads.{map_checks};
ghost use Rattle.dockets.specs.Reading.{count_checks, field_at, present, FailsAt, Hold, Whole, kind_of};

use crate::kind::Kind;
use crate::{LineFault, LineRule};

// The rest is the bytes from the place on; past the docket's end there are none.
#[derive(Drop)]
pub(crate) struct Cursor<'a> {
    docket: &'a [u8],
    at: usize,
    rest: &'a [u8],
    ghost stands: { rest.now ≡ drop at docket.now },
}

impl<'a> Cursor<'a> {
    pub(crate) fn new(docket: &'a [u8], at: usize) -> Cursor<'a>
        ensures of { result.docket.now ≡ docket.now }
        ensures place { result.at ≡ at }
    {
        let rest = docket.get(at..).unwrap_or(&[]);
        Cursor { docket, at, rest }
    }

    // Its offset.
    pub(crate) fn place(&self) -> usize
        ensures { result ≡ self.now.at }
    {
        self.at
    }

    // Takes a map byte.
    pub(crate) fn kind(&mut self) -> Result<Kind, LineFault>
        ensures same { self.new.docket.now ≡ self.old.docket.now }
        ensures onto { OnOk result (self.new.at ≡ self.old.at + 1) }
        ensures known { OnOk result (Hold (map_checks self.old.docket.now self.old.at)) }
        ensures kind { IfOk result (λ kind. of_kind kind ≡ kind_of (slice_index self.old.docket.now self.old.at)) }
        ensures fault { IfErr result (λ e. FailsAt e (map_checks self.old.docket.now self.old.at)) }
    {
        match self.rest {
            [map, rest @ ..] => {
                let kind = Kind::try_from(*map).map_err(|rule| rule.at(self.at))?;
                *self = Cursor {
                    docket: self.docket,
                    at: self.at + 1,
                    rest,
                };
                Ok(kind)
            }
            [] => Err(LineRule::Short.at(self.at)),
        }
    }

    // Takes a field.
    pub(crate) fn field(&mut self) -> Result<u16, LineFault>
        ensures same { self.new.docket.now ≡ self.old.docket.now }
        ensures onto { OnOk result (self.new.at ≡ self.old.at + 2) }
        ensures whole { OnOk result (Whole self.old.docket.now self.old.at) }
        ensures value { IfOk result (λ x. x ≡ field_at self.old.docket.now self.old.at) }
        ensures fault { IfErr result (λ e. FailsAt e (present self.old.docket.now self.old.at ∷ [])) }
    {
        match self.rest {
            [high, low, rest @ ..] => {
                *self = Cursor {
                    docket: self.docket,
                    at: self.at + 2,
                    rest,
                };
                Ok(u16::from_be_bytes([*high, *low]))
            }
            _ => Err(LineRule::Short.at(self.at)),
        }
    }

    // Takes the count of a card's pairs, which is at most 512.
    pub(crate) fn count(&mut self) -> Result<usize, LineFault>
        ensures same { self.new.docket.now ≡ self.old.docket.now }
        ensures onto { OnOk result (self.new.at ≡ self.old.at + 2) }
        ensures holds { OnOk result (Hold (count_checks self.old.docket.now self.old.at)) }
        ensures value { IfOk result (λ n. n ≡ field_at self.old.docket.now self.old.at) }
        ensures fault { IfErr result (λ e. FailsAt e (count_checks self.old.docket.now self.old.at)) }
    {
        let place = self.at;
        let count = self.field()?;
        if count > 512 {
            return Err(LineRule::Card.at(place));
        }
        Ok(usize::from(count))
    }

    // So many pairs from here on; what is past the docket's end counts as 0.
    pub(crate) fn pairs(&self, count: usize) -> [(u16, u16); 512]
        requires { count ≤ 512 }
        ensures { take count result ≡ pairs_from self.now.docket.now self.now.at count }
    {
        // a small card is read ten times faster so than by an array made from a function of all 512 places
        let mut pairs = [(0, 0); 512];
        for k in 0..count {
            pairs[k] = (self.field_at(4 * k), self.field_at(4 * k + 2));
        }
        pairs
    }

    // The field so many bytes from here; what is past the docket's end counts as 0.
    pub(crate) fn field_at(&self, byte: usize) -> u16
        requires { byte < 2 ^ 63 }
        ensures { result ≡ field_at self.now.docket.now (self.now.at + byte) }
    {
        let high = self.rest.get(byte).copied().unwrap_or(0);
        let low = self.rest.get(byte + 1).copied().unwrap_or(0);
        u16::from_be_bytes([high, low])
    }

    // Asks for so many fields, and passes them.
    pub(crate) fn ask(&mut self, fields: usize) -> Result<(), LineFault>
        requires { fields ≤ 1024 }
        ensures same { self.new.docket.now ≡ self.old.docket.now }
        ensures onto { OnOk result (self.new.at ≡ self.old.at + 2 * fields) }
        ensures there { OnOk result (fields ≤ whole_fields self.old.docket.now self.old.at) }
        ensures fault { IfErr result (λ e. CutOff self.old.docket.now self.old.at fields e) }
    {
        let whole = self.rest.len() / 2;
        if whole < fields {
            return Err(LineRule::Short.at(self.at + 2 * whole));
        }
        *self = Cursor::new(self.docket, self.at + 2 * fields);
        Ok(())
    }
}
