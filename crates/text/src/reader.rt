// A text read into lent cells.
ghost use Rattle.std.specs.Prelude.{◌≡◌, length, replicate};
ghost use Rattle.reading.specs.Stands.{sizes};
ghost use Rattle.text.specs.Filled.{Filled};
ghost use Rattle.text.specs.Going.{CameTo};

use super::outline::Outline;
use super::prefix::Prefix;
use grammar::TextFault;
use reading::State;
use words::Words;

// Reads a formula text into literal cells and end cells. They are two slices and no struct, since all that is called below takes
// them one by one: a struct would be made here only to be taken apart.
pub fn read(text: &[u8], literals: &mut [u16], ends: &mut [u16]) -> Result<Outline, TextFault>
    ensures { Filled (sizes literals.old ends.old) text.now result literals.new ends.new }
{
    literals.fill(0);
    ends.fill(0);
    let result = read_words(text, literals, ends);
    if result.is_err() {
        literals.fill(0);
        ends.fill(0);
    }
    result
}

// The same over cells that hold 0; after a fault they hold what was read before it.
fn read_words(text: &[u8], literals: &mut [u16], ends: &mut [u16]) -> Result<Outline, TextFault>
    requires no_codes { literals.old ≡ replicate (length literals.old) 0 }
    requires no_counts { ends.old ≡ replicate (length ends.old) 0 }
    ensures { CameTo text.now result literals.new ends.new }
{
    let mut state = State::new();
    for word in Words::new(text) {
        state
            .step(word.token, literals, ends)
            .map_err(|rule| TextFault {
                rule,
                byte: word.place,
            })?;
    }
    state.finish().map_err(|rule| TextFault {
        rule,
        byte: text.len(),
    })?;
    Ok(Outline {
        prefix: Prefix {
            n: state.n,
            bindings: state.bindings,
        },
        clauses: state.m,
    })
}
