//! The numbers of a server in memory.
use crate::metrics::MetricsWriter;
use std::alloc::Global;

/// Keeps the text that was written last. For tests.
#[derive(Drop)]
pub struct MemoryMetrics {
    alloc: Global,
    text: Option<Vec<u8>>,
}

impl MemoryMetrics {
    /// Returns metrics without a text.
    pub fn new(alloc: Global) -> MemoryMetrics {
        MemoryMetrics { alloc, text: None }
    }

    /// Returns the text that was written last, if there was memory for it.
    pub fn text(&self) -> Option<&[u8]> {
        match &self.text {
            Some(text) => Some(text.as_slice()),
            None => None,
        }
    }
}

impl MetricsWriter for MemoryMetrics {
    fn write_metrics(&mut self, text: &[u8]) {
        self.text = Vec::from_slice(self.alloc, text).ok();
    }

    fn journal_bytes(&self) -> u64 {
        0
    }
}
