//! The value of a field, while it is made. One vector holds each value in turn.
ghost use Rattle.std.specs.Prelude.{◌≡◌, ◌++◌, OnOk, decimal};

use itoa::Buffer;
use std::alloc::AllocError;

/// The room that values get at first. A longer one gets more.
pub(crate) const USUAL_VALUE: usize = 64;

/// Appends a number in decimal.
pub(crate) fn push_number(value: &mut Vec<u8>, number: u64) -> Result<(), AllocError>
    ensures { OnOk result (value.new.items ≡ value.old.items ++ decimal number) }
{
    value.extend_from_slice(Buffer::new().format(number).as_bytes())
}

/// Makes these bytes the value.
pub(crate) fn set_bytes(value: &mut Vec<u8>, bytes: &[u8]) -> Result<(), AllocError>
    ensures { OnOk result (value.new.items ≡ bytes.now) }
{
    value.clear();
    value.extend_from_slice(bytes)
}
