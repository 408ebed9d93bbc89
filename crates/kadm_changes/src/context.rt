//! The context of a command.

use std::alloc::Global;

/// What a command uses besides its target and the files: memory, and what it prints to.
#[derive(Drop)]
pub struct Context<W, E> {
    /// What it takes its memory from.
    pub alloc: Global,
    /// Takes what the command prints.
    pub out: W,
    /// Takes the reasons of what is not done, and what an administrator may not expect.
    pub errors: E,
    /// What is to be said in `errors` of the lines of a batch, once the database is written.
    pub notes: Vec<u8>,
    /// For the progress reports of a batch.
    pub progress: Progress,
}

/// How far a batch is, for those who watch it.
#[derive(Clone, Copy)]
pub struct Progress {
    /// Whether standard error is a terminal.
    pub watched: bool,
    /// The second of the last report, or of the start.
    pub second: Option<u64>,
}
