// What can be written, and the one call that writes it into a lent buffer.
ghost use Rattle.std.specs.Prelude.{◌≡◌, ℕ, ◌-◌, ◌^◌, min, List, length, ⊤};
ghost use Rattle.writer.specs.Into.{answer, filled};
ghost use Rattle.writer.specs.Pen.{Put};

use crate::fault::WriteFault;
use crate::pen::Pen;

// A pen puts the bytes, and not `write!`: what `fmt` promises of a text holds only where it answers Ok, and no contract says that it does, so
// a call that cannot fail could.
pub trait Writable {
    // its bytes
    ghost bytes: { Self → List ℕ };

    // what is known of it once it was read, as that its numbers fit their types; the default says nothing
    ghost known: { Self → Type 0 } = { λ _. ⊤ };

    // Puts its bytes one after the other.
    fn put(&self, pen: &mut Pen<'_>)
        ensures puts { Put (bytes self.now) pen.old pen.new }
        ensures knows { known self.now };
}

// How many bytes a text has, as far as they are counted.
pub fn count<T: Writable>(text: &T) -> usize
    ensures counts { result ≡ min (length (T.bytes text.now)) (2 ^ 64 - 1) }
    ensures knows { T.known text.now }
{
    // over no buffer at all, the bytes are only counted
    let mut tally = Pen::new(&mut []);
    text.put(&mut tally);
    tally.place()
}

// Writes a text into a buffer; answers how long it is. A buffer that is too short stays as it was.
pub fn write_into<T: Writable>(text: &T, out: &mut [u8]) -> Result<usize, WriteFault>
    ensures answers { result ≡ answer (T.bytes text.now) out.old }
    ensures holds { out.new ≡ filled (T.bytes text.now) out.old }
    ensures knows { T.known text.now }
{
    if out.len() < count(text) {
        return Err(WriteFault::Cramped);
    }
    let mut pen = Pen::new(out);
    text.put(&mut pen);
    Ok(pen.place())
}
