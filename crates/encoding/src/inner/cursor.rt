// A slice that is lent, written from its front.
ghost use Rattle.std.specs.Prelude.{◌≤◌, length};

// `at` is the place behind what is written. Room is asked by each step and held by no field: each writes another number of bytes.
#[derive(Drop)]
pub struct Cursor<'a> {
    out: &'a mut [u8],
    at: usize,
    ghost within: { at ≤ length out.now },
}

impl<'a> Cursor<'a> {
    ghost use Rattle.std.specs.Prelude.{◌≡◌, [], ◌∷◌, length};
    ghost use Rattle.meaning.specs.Encoding.{bytes};
    ghost use Rattle.encoding.specs.Append.{written, rest, Wrote, Room};

    pub fn new(out: &'a mut [u8]) -> Cursor<'a>
        ensures written { written result ≡ [] }
        ensures rest { rest result ≡ out.old }
        ensures slice { result.out.ghost_name ≡ out.entry.ghost_name }
    {
        Cursor { out, at: 0 }
    }

    // How many bytes are written.
    pub fn len(&self) -> usize
        ensures { result ≡ length (written self.now) }
    {
        self.at
    }

    pub fn put_bytes(&mut self, bytes: &[u8])
        requires { Room self.old bytes.now }
        ensures { Wrote self.old bytes.now self.new }
    {
        let end = self.at + bytes.len();
        self.out[self.at..end].copy_from_slice(bytes);
        self.at = end;
    }

    pub fn put_byte(&mut self, byte: u8)
        requires { Room self.old (byte ∷ []) }
        ensures { Wrote self.old (byte ∷ []) self.new }
    {
        self.put_bytes(&[byte]);
    }

    // A number of two bytes, high byte first.
    pub fn put_u16(&mut self, x: u16)
        requires { Room self.old (bytes 2 x) }
        ensures { Wrote self.old (bytes 2 x) self.new }
    {
        self.put_bytes(&x.to_be_bytes());
    }
}
