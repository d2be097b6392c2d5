// A pen puts bytes into a lent buffer one after the other; its place goes on past the buffer's end, to tell how long a text is.
ghost use Rattle.std.specs.Prelude.{◌≡◌, [], ◌∷◌, codes, decimal};
ghost use Rattle.writer.specs.Pen.{Put};

#[derive(Drop)]
pub struct Pen<'a> {
    out: &'a mut [u8],
    at: usize,
}

impl<'a> Pen<'a> {
    // A pen at the start of a buffer.
    pub fn new(out: &'a mut [u8]) -> Pen<'a>
        ensures same { result.out.ghost_name ≡ out.entry.ghost_name }
        ensures buffer { result.out.now ≡ out.old }
        ensures place { result.at ≡ 0 }
    {
        Pen::at(out, 0)
    }

    // A pen at a place of a buffer, or past it. The name of the loan ties what the pen leaves to what the lender finds.
    pub fn at(out: &'a mut [u8], at: usize) -> Pen<'a>
        ensures same { result.out.ghost_name ≡ out.entry.ghost_name }
        ensures buffer { result.out.now ≡ out.old }
        ensures place { result.at ≡ at }
    {
        Pen { out, at }
    }

    // The place of the next byte.
    pub fn place(&self) -> usize
        ensures { result ≡ self.now.at }
    {
        self.at
    }

    // Puts a byte, if its place is within the buffer.
    pub fn put(&mut self, byte: u8)
        ensures { Put (byte ∷ []) self.old self.new }
    {
        if self.at < self.out.len() {
            self.out[self.at] = byte;
        }
        self.at = self.at.saturating_add(1);
    }

    // Puts bytes one after the other.
    pub fn put_all(&mut self, bytes: &[u8])
        ensures { Put bytes.now self.old self.new }
    {
        for byte in bytes {
            self.put(*byte);
        }
    }

    // Puts the digits of a number.
    pub fn put_number(&mut self, k: usize)
        ensures { Put (decimal k) self.old self.new }
    {
        if k >= 10 {
            self.put_number(k / 10);
        }
        self.put(b'0' + (k % 10) as u8);
    }

    // Puts a space.
    pub(crate) fn put_space(&mut self)
        ensures { Put (32 ∷ []) self.old self.new }
    {
        self.put(b' ');
    }

    // Ends the line of a level or a clause: 0 and a line feed.
    pub(crate) fn put_end(&mut self)
        ensures { Put (codes "0\n") self.old self.new }
    {
        self.put_all(b"0\n");
    }
}
