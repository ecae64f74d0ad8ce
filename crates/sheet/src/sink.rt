ghost use Rattle.std.specs.Prelude.{ℕ, [], ◌∷◌};
ghost use Rattle.sheet.specs.Sinks.{Puts, CountsOne, WritesOne};

// What text is put into, byte by byte.
pub(crate) trait Sink {
    // this byte brings the first sink to the second
    ghost takes: { Self → ℕ → Self → Type 0 };

    fn put(&mut self, byte: u8)
        ensures { Puts takes self.old (byte ∷ []) self.new };
}

// A sink that only counts the bytes.
#[derive(Clone, Copy)]
pub(crate) struct Measure {
    pub(crate) length: usize,
}

impl Sink for Measure {
    ghost takes = { λ s _ t. CountsOne s t };

    fn put(&mut self, _byte: u8) {
        self.length = self.length.saturating_add(1);
    }
}

// A sink that writes the bytes over those of a slice, from its first on, as far as they fit. It counts them: a slice that lost each
// byte by `split_first_mut` would be another reference each time, and no clause would say what the lender's bytes then hold.
#[derive(Drop)]
pub(crate) struct Pen<'a> {
    pub(crate) bytes: &'a mut [u8],
    pub(crate) at: usize,
}

impl Sink for Pen<'_> {
    ghost takes = { WritesOne };

    fn put(&mut self, byte: u8) {
        if self.at < self.bytes.len() {
            self.bytes[self.at] = byte;
            self.at += 1;
        }
    }
}
