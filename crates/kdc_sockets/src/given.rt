//! How many replies a connection was given, and how many bytes.
ghost use Rattle.std.specs.Prelude.{◌≡◌, length};
ghost use Rattle.kdc_sockets.specs.Given.{given_more, is_all_given, nothing_given};

/// The number of replies after which a connection is closed. The requests of the same piece are still answered.
const MOST_REPLIES: u64 = 256;

/// The number of bytes of replies, with the length before each, after which a connection is closed.
const MOST_REPLY_BYTES: u64 = 262_144;

/// The number of bytes of the length before a reply (RFC 4120, section 7.2.2).
const LENGTH_BYTES: u64 = 4;

/// What a connection was given so far. Both counts stop at the greatest `u64`.
#[derive(Clone, Copy, PartialEq, Eq)]
pub struct Given {
    /// The number of replies.
    replies: u64,
    /// The number of bytes of these replies, with the length before each.
    bytes: u64,
}

impl Given {
    /// Returns the counts of a new connection.
    pub fn nothing() -> Given
        ensures { result ≡ nothing_given }
    {
        Given {
            replies: 0,
            bytes: 0,
        }
    }

    /// Returns the counts with this reply, too.
    pub fn more(self, message: &[u8]) -> Given
        ensures { result ≡ given_more self message.now }
    {
        let bytes = (message.len() as u64).saturating_add(LENGTH_BYTES);
        Given {
            replies: self.replies.saturating_add(1),
            bytes: self.bytes.saturating_add(bytes),
        }
    }

    /// Checks whether this is all that a connection is given.
    pub fn is_all(self) -> bool
        ensures { result ≡ is_all_given self }
    {
        self.replies >= MOST_REPLIES || self.bytes >= MOST_REPLY_BYTES
    }
}
