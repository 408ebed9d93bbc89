//! Watching a server while it serves.
use crate::hub::Hub;
use crate::rows::RowsState;
use crate::server::Served;
use std::alloc::Global;

/// A server after a period.
#[derive(Drop)]
pub struct ServerView<'a, W, R> {
    /// What it receives and sends through.
    pub wire: &'a W,
    /// The state of the rows that it serves.
    pub rows: RowsState,
    /// The hub, with the KDC and the connections.
    pub hub: &'a Hub<R>,
    /// What it served in the period.
    pub served: Served,
}

/// Watches a server after each period, and can't change it.
pub trait Observer<W, R> {
    /// Looks at the server after a period.
    fn see(&mut self, alloc: Global, server: &ServerView<'_, W, R>);
}

/// Watches nothing.
impl<W, R> Observer<W, R> for () {
    fn see(&mut self, _alloc: Global, _server: &ServerView<'_, W, R>) {}
}
