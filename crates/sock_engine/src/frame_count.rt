//! How many messages went out over a connection.

/// Where a stream of messages stands, each behind two bytes with its length (RFC 1035, section 4.2.2).
#[derive(Clone, Copy)]
pub(crate) struct FrameCount {
    /// How many messages were begun.
    begun: u64,
    /// How many bytes the last one lacks.
    left: usize,
    /// The first byte of a length whose second is still to come.
    high: Option<u8>,
}

impl FrameCount {
    /// None yet.
    pub(crate) fn make() -> FrameCount {
        FrameCount {
            begun: 0,
            left: 0,
            high: None,
        }
    }

    /// How many messages were begun.
    pub(crate) fn begun(&self) -> u64 {
        self.begun
    }

    /// Passes over the next bytes of the stream.
    pub(crate) fn pass(&mut self, bytes: &[u8]) {
        let mut rest = bytes;
        for _ in 0..bytes.len() {
            if rest.is_empty() {
                return;
            }
            rest = self.pass_some(rest);
        }
    }

    /// Passes over the rest of a message, or one byte of a length, and answers what is behind.
    fn pass_some<'a>(&mut self, bytes: &'a [u8]) -> &'a [u8] {
        let [first, behind @ ..] = bytes else {
            return bytes;
        };
        if self.left > 0 {
            let step = self.left.min(bytes.len());
            self.left = self.left.saturating_sub(step);
            return bytes.get(step..).unwrap_or(&[]);
        }
        self.high = match self.high {
            Some(high) => {
                self.left = u16::from_be_bytes([high, *first]) as usize;
                None
            }
            None => {
                self.begun = self.begun.saturating_add(1);
                Some(*first)
            }
        };
        behind
    }
}
