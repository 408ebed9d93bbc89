//! What a command that writes a file has done.
ghost use Rattle.std.specs.Prelude.{◌≡◌, true};

use file_store::Written;

/// What a command that writes a file has done.
pub(crate) struct Outcome {
    /// Whether all was done: a batch that keeps going may have been done in part.
    pub whole: bool,
    /// Whether the file is on the disk.
    pub written: Written,
}

impl Outcome {
    /// Returns the outcome of a command that has done all.
    pub(crate) fn whole(written: Written) -> Outcome
        ensures { result.whole ≡ true }
    {
        Outcome {
            whole: true,
            written,
        }
    }
}
