//! The numbers of a server: how many requests came, by exchange, outcome and rule, and what else Prometheus reads.
//!
//! ```
//! let mut log = CountedLog::new(RequestLines::new(lines, LogFormat::Text)); // both of `request_log`
//! log_action(alloc, &mut log, &tried);
//! if let Some(counts) = log.counts() {
//!     push_numbers(&mut text, VERSION, &numbers, counts)?; // `VERSION` of `file_store`
//!     metrics.write_metrics(&text);
//! }
//! ```
//!
//! Each request is of one kind, by its audit record: the exchange, the outcome, and the rule that refused it. A count
//! of a kind is the number of requests of that kind, up to the greatest `u64`. Counting allocates nothing.
//!
//! [`MemoryTally`] and [`MemoryMetrics`] keep what they are given in memory, for tests.
//!
//! It gathers no numbers of a server and does not decide when they are written: `kdc_server` does.
#![tactic(auto)]

mod count_laws;
mod count_text;
mod counted_log;
mod counts;
mod kind;
mod memory;
mod metrics;
mod metrics_file;
mod numbers;
mod places;
mod prometheus;
mod tally;

pub use crate::count_laws::places_of_kinds;
pub use crate::counted_log::{CountedLog, LogNumbers};
pub use crate::counts::Counts;
pub use crate::kind::Kind;
pub use crate::memory::metrics::MemoryMetrics;
pub use crate::memory::tally::MemoryTally;
pub use crate::metrics::MetricsWriter;
pub use crate::metrics_file::{MetricsFile, MetricsPaths};
pub use crate::numbers::{Numbers, push_numbers};
pub use crate::prometheus::{NumberType, push_head, push_sample, push_single};
pub use crate::tally::{FaultCount, Tally};
