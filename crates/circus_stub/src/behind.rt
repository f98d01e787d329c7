// Bytes from a place on.
ghost use Rattle.std.specs.Prelude.{drop};

use circus_external::ByteSource;

/// The bytes of a source from a place on, which are counted from there. The place may be past the end.
#[derive(Drop)]
pub(crate) struct Behind<'a, S> {
    pub(crate) source: &'a S,
    pub(crate) at: usize,
}

impl<S: ByteSource> ByteSource for Behind<'_, S> {
    ghost octets = { λ b. drop b.at (S.octets b.source.now) };

    fn len(&self) -> usize {
        self.source.len().saturating_sub(self.at)
    }

    fn byte(&self, at: usize) -> Option<u8> {
        let len = self.source.len();
        if at < len.saturating_sub(self.at) {
            self.source.byte(self.at + at)
        } else {
            None
        }
    }
}
