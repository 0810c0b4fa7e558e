// Text written into a lent slice of bytes.
ghost use Rattle.std.specs.Prelude.{◌≡◌, ℕ, ◌+◌, ◌^◌, ◌<◌, List, [], ◌∷◌, length, decimal};

// A text: the bytes that fit are written, and all are counted. It lies in places that are lent, since nothing here allocates, and the count is not
// their length. It has no `fmt::Write`: what `write!` promises of the text holds only where it answers Ok, and no contract says when it does, while
// each call here writes, and says what.
#[derive(Drop)]
pub struct Text<'a> {
    out: &'a mut [u8],
    len: usize,
}

impl<'a> Text<'a> {
    ghost use Rattle.listing.specs.Text.{Wrote};

    // An empty text, to be written from the first place of `out` on.
    pub fn over(out: &'a mut [u8]) -> Text<'a>
        ensures { (result.len ≡ 0) × (result.out.now ≡ out.old) × (result.out.ghost_name ≡ out.entry.ghost_name) }
    {
        Text { out, len: 0 }
    }

    // How many bytes the text has.
    pub fn len(&self) -> usize
        ensures { result ≡ self.now.len }
    {
        self.len
    }

    // One byte.
    pub fn byte(&mut self, b: u8)
        ensures { Wrote (b ∷ []) self.old self.new }
    {
        let at = self.len;
        // by index: nothing is known of a slice's elements after `get_mut`
        if at < self.out.len() {
            self.out[at] = b;
        }
        self.len = at.saturating_add(1);
    }

    // A number in decimal digits.
    pub fn number(&mut self, n: u64)
        ensures { Wrote (decimal n) self.old self.new }
    {
        if n >= 10 {
            self.number(n / 10);
        }
        self.byte(b'0' + (n % 10) as u8);
    }
}
