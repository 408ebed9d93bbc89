//! How much a replay cache holds.
ghost use Rattle.std.specs.Prelude.{◌≡◌, length};
ghost use Rattle.std.specs.FinMap as map;
ghost use Rattle.replay.specs.Sizes.{bytes_in, limited, size_of};

use crate::keep::{Keep, Kept};
use crate::pairs::Pairs;

impl Kept {
    /// Returns how many bytes a request and its reply have, up to the greatest `u64`.
    pub fn size(&self) -> u64
        ensures { result ≡ limited (size_of self.now) }
    {
        let request = self.request.as_slice().len() as u64;
        let reply = self.reply.as_slice().len() as u64;
        request.saturating_add(reply)
    }
}

impl<T: Keep> Pairs<T> {
    /// Returns how many pairs are recorded.
    pub fn len(&self) -> usize
        ensures { result ≡ map.len self.now }
    {
        self.kept.len()
    }
}

impl Pairs<Kept> {
    /// Returns how many bytes are kept for all pairs, up to the greatest `u64`.
    pub fn kept_bytes(&self) -> u64
        ensures { result ≡ limited (bytes_in self.now) }
    {
        let mut bytes: u64 = 0;
        for (_, kept) in &self.kept {
            bytes = bytes.saturating_add(kept.size());
        }
        bytes
    }
}
