//! What takes the text of a server's numbers.

/// Takes the text of a server's numbers.
pub trait MetricsWriter {
    /// Replaces the last text by this one. A failure is logged once, until a text is written again.
    fn write_metrics(&mut self, text: &[u8]);

    /// Returns how many bytes the journal's files have.
    fn journal_bytes(&self) -> u64;
}
