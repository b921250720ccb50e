// Lent bytes that are written from the front on.
ghost use Rattle.std.specs.Prelude.{◌≡◌, ◌+◌, ◌≤◌, ◌^◌, [], ◌∷◌, length};

// How much is written so far. What is past the end of the bytes counts, and is kept nowhere.
#[derive(Drop)]
pub(crate) struct LentText<'a> {
    pub(crate) bytes: &'a mut [u8],
    pub(crate) at: usize,
}

impl LentText<'_> {
    ghost use Rattle.listing.specs.Lines.{spaced};
    ghost use Rattle.listing.specs.Text.{Writes};

    // A byte.
    fn byte(&mut self, byte: u8)
        requires { self.old.at + 1 ≤ 2 ^ 40 }
        ensures { Writes self.old self.new (byte ∷ []) }
    {
        // A proof knows what this stores, and not what is stored through `get_mut`.
        if self.at < self.bytes.len() {
            self.bytes[self.at] = byte;
        }
        self.at += 1;
    }

    // The bytes of a word.
    pub(crate) fn word(&mut self, word: &str)
        requires { self.old.at + length word.now ≤ 2 ^ 40 }
        ensures writes { Writes self.old self.new word.now }
        ensures at { self.new.at ≡ self.old.at + length word.now }
    {
        for byte in word.as_bytes() {
            self.byte(*byte);
        }
    }

    // A space and a number in decimal.
    pub(crate) fn number(&mut self, n: u64)
        requires { self.old.at + 21 ≤ 2 ^ 40 }
        ensures writes { Writes self.old self.new (spaced (n ∷ [])) }
        ensures short { self.new.at ≤ self.old.at + 21 }
    {
        let mut digits = itoa::Buffer::new();
        self.word(" ");
        self.word(digits.format(n));
    }
}
