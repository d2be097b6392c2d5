// The card at a place of a docket.
ghost use Rattle.std.specs.Prelude.{◌≡◌, ℕ, ◌+◌, ◌*◌, ◌^◌, ◌<◌, ◌≤◌, MatchResult};
ghost use Rattle.cards.specs.Meant.{meant};
ghost use Rattle.cards.specs.Pairs.{Makes};
ghost use Rattle.dockets.specs.Placing.{asked, byte_of};
ghost use Rattle.dockets.specs.Reading.{FailsAt, Hold, card_checks, pairs_at};

use crate::cursor::Cursor;
use crate::{LineFault, LineRule};
use cards::{Card, CardFault};

// The card whose pair count stands at a place.
pub fn card_at(docket: &[u8], place: usize) -> Result<Card, LineFault>
    ensures { MatchResult result (λ card. Hold (card_checks docket.now place) × Makes (pairs_at docket.now place) (meant card)) (λ e. FailsAt e (card_checks docket.now place)) }
{
    let mut cursor = Cursor::new(docket, place);
    let count = cursor.count()?;
    let pairs = cursor.pairs(count);
    match Card::from_pairs(&pairs[..count]) {
        Ok(card) => {
            cursor.ask(2 * count)?;
            Ok(card)
        }
        Err(fault) => {
            let (fields, byte) = asked(fault, place, count);
            cursor.ask(fields)?;
            Err(LineRule::Card.at(byte))
        }
    }
}

// How many fields behind the count are asked for before a fault of the pairs is found, and the byte of the one that has it.
fn asked(fault: CardFault, place: usize, count: usize) -> (usize, usize)
    requires byte { byte_of place fault < 2 ^ 64 }
    requires few { count ≤ 512 }
    ensures fields { result.0 ≡ asked count fault }
    ensures byte { result.1 ≡ byte_of place fault }
{
    match fault {
        CardFault::Many => (0, place),
        CardFault::Variable(k) => (2 * k + 1, place + 2 + 4 * k),
        CardFault::Image(k) => (2 * k + 2, place + 4 + 4 * k),
        CardFault::Unnamed(k) => (2 * count, place + 4 + 4 * k),
    }
}
