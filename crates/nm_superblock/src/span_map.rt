ghost use Rattle.std.specs.Prelude.{◌≡◌, ◌<◌, ◌↔◌, IsTrue};
ghost use Rattle.nm_superblock.specs.Spans.{IsUnmarked, SetsMark, mark_of};

/// The spans in which legs may differ: bit `i % 8` of byte `i / 8` is span number `i` of each
/// stripe.
#[derive(Clone, Copy, Debug, PartialEq, Eq)]
pub struct SpanMap {
    /// The bits.
    pub bytes: [u8; 2048],
}

impl SpanMap {
    /// Whether the span is marked.
    pub fn is_marked(&self, span: usize) -> bool
        requires { span < 16384 }
        ensures { IsTrue result ↔ (mark_of span self.now ≡ 1) }
    {
        (self.bytes[span / 8] >> (span % 8)) & 1 == 1
    }

    /// Whether no span is marked.
    pub fn is_empty(&self) -> bool
        ensures { IsTrue result ↔ IsUnmarked 16384 self.now }
    {
        'spans: for span in 0..16384 {
            if self.is_marked(span) {
                return false;
            }
        }
        true
    }

    /// Marks the span.
    pub fn mark(&mut self, span: usize)
        requires { span < 16384 }
        ensures { SetsMark span 1 self.old self.new }
    {
        self.bytes[span / 8] |= 1 << (span % 8);
    }

    /// Takes the span's mark away.
    pub fn unmark(&mut self, span: usize)
        requires { span < 16384 }
        ensures { SetsMark span 0 self.old self.new }
    {
        self.bytes[span / 8] &= !(1 << (span % 8));
    }
}
