//! Prometheus' text format, version 0.0.4.
ghost use Rattle.std.specs.Prelude.{◌≡◌, ◌++◌, OnOk, codes};
ghost use Rattle.kdc_metrics.specs.Prometheus.{head, sample, single, type_line, type_word, value_text};

use itoa::Buffer;
use std::alloc::AllocError;

/// How a number changes with time.
#[derive(Clone, Copy, PartialEq, Eq)]
pub enum NumberType {
    /// It rises until the process ends.
    Counter,
    /// It rises and falls.
    Gauge,
}

/// Appends the lines in front of the samples of this name. `help` is one line without a backslash.
pub fn push_head(
    text: &mut Vec<u8>,
    name: &str,
    number_type: NumberType,
    help: &str,
) -> Result<(), AllocError>
    ensures { OnOk result (text.new.items ≡ text.old.items ++ head name.now number_type help.now) }
{
    text.extend_from_slice(b"# HELP ")?;
    text.extend_from_slice(name.as_bytes())?;
    text.extend_from_slice(b" ")?;
    text.extend_from_slice(help.as_bytes())?;
    push_type(text, name, number_type)
}

/// Ends a line, and appends the one with the type of a name.
fn push_type(text: &mut Vec<u8>, name: &str, number_type: NumberType) -> Result<(), AllocError>
    ensures { OnOk result (text.new.items ≡ text.old.items ++ type_line name.now number_type) }
{
    text.extend_from_slice(b"\n# TYPE ")?;
    text.extend_from_slice(name.as_bytes())?;
    text.extend_from_slice(type_word(number_type))
}

fn type_word(number_type: NumberType) -> &'static [u8]
    ensures { result.now ≡ type_word number_type }
{
    match number_type {
        NumberType::Counter => b" counter\n",
        NumberType::Gauge => b" gauge\n",
    }
}

/// Appends a sample of a name, with labels that are a text in braces, or nothing.
pub fn push_sample(
    text: &mut Vec<u8>,
    name: &str,
    labels: &[u8],
    value: u64,
) -> Result<(), AllocError>
    ensures { OnOk result (text.new.items ≡ text.old.items ++ sample name.now labels.now value) }
{
    text.extend_from_slice(name.as_bytes())?;
    text.extend_from_slice(labels)?;
    push_value(text, value)
}

/// Appends a text.
pub(crate) fn push_str(text: &mut Vec<u8>, words: &str) -> Result<(), AllocError>
    ensures { OnOk result (text.new.items ≡ text.old.items ++ words.now) }
{
    text.extend_from_slice(words.as_bytes())
}

/// Appends the value of a sample, and ends its line.
pub(crate) fn push_value(text: &mut Vec<u8>, value: u64) -> Result<(), AllocError>
    ensures { OnOk result (text.new.items ≡ text.old.items ++ value_text value) }
{
    text.extend_from_slice(b" ")?;
    text.extend_from_slice(Buffer::new().format(value).as_bytes())?;
    text.extend_from_slice(b"\n")
}

/// Appends a name that has one sample, without labels.
pub fn push_single(
    text: &mut Vec<u8>,
    name: &str,
    number_type: NumberType,
    help: &str,
    value: u64,
) -> Result<(), AllocError>
    ensures { OnOk result (text.new.items ≡ text.old.items ++ single name.now number_type help.now value) }
{
    push_head(text, name, number_type, help)?;
    push_sample(text, name, b"", value)
}
