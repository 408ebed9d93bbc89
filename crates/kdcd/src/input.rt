//! The lines of a script, within the limits on their size.
ghost use Rattle.std.specs.Prelude.{◌≡◌, ◌⊎◌, true, IsOk, ◌≤◌, ◌<◌, ◌+◌, [], IfOk, IfSome, OnOk, IsTrue, IsFalse};
ghost use Rattle.std.specs.Prelude.{length, take, drop, Some};
ghost use Rattle.std.specs.Io.BufRead.{take_through, strip_last};
ghost use Rattle.std.specs.Io.KnownBytes.{IsAtEnd};
ghost use Rattle.kdcd.specs.Octets.{octets_of};
ghost use Rattle.kdcd.specs.Input.{TakesLine, IsBeyond};
ghost use Rattle.kdcd.specs.declared.script.ScriptError.TheVariants.{Failed, Fault};

use crate::octets::Octets;
use crate::script::ScriptError;
use std::alloc::Global;
use std::io;
use std::io::Read;

/// The maximum length of a line in bytes, without its line feed.
pub(crate) const MAX_LINE: usize = 262_144;

/// The maximum length of an input in bytes.
pub(crate) const MAX_INPUT: usize = 16_777_216;

/// The lines of a reader.
#[derive(Drop)]
pub(crate) struct Input<R: Read + Drop> {
    octets: Octets<R>,
    /// How many bytes were read.
    taken: usize,
    /// The number of the last line that was read. The first line is 1.
    number: usize,
    ghost counted: { number ≤ taken },
    ghost within: { taken ≤ 16777217 },
}

impl<R: Read + Drop> Input<R> {
    pub(crate) fn new(alloc: Global, reader: R) -> Result<Input<R>, ScriptError>
        ensures octets { IfOk result (λ input. octets_of R.remaining input.octets ≡ R.remaining reader) }
        ensures taken { IfOk result (λ input. input.taken ≡ 0) }
        ensures number { IfOk result (λ input. input.number ≡ 0) }
        ensures fault { result ≡ Err Failed ⊎ IsOk result }
    {
        Ok(Input {
            octets: Octets::new(alloc, reader)?,
            taken: 0,
            number: 0,
        })
    }

    /// Returns the number of the last line that was read. The first line is 1.
    pub(crate) fn number(&self) -> usize
        ensures { result ≡ self.now.number }
    {
        self.number
    }

    /// Reads the next line into `line`, without its line feed. Returns `false` at the end of the input.
    ///
    /// A line above the maximum length is a fault. So is the line that has the first byte above the maximum length of
    /// an input.
    pub(crate) fn next_line(&mut self, line: &mut Vec<u8>) -> Result<bool, ScriptError>
        requires { self.old.taken ≤ 16777216 }
        // Promise (line, end, fault): the lines that are read are those of the input, each without its line feed; one
        // that is not read is beyond the limits.
        ensures line { IfOk result (λ more.
            IsTrue more
            → TakesLine (octets_of R.remaining self.old.octets)
            (octets_of R.remaining self.new.octets) self.old.taken self.new.taken line.new.items) }
        ensures end { IfOk result (λ more. IsFalse more → IsAtEnd (octets_of R.remaining self.old.octets)) }
        ensures fault { result ≡ Err Fault → IsBeyond (octets_of R.remaining self.old.octets) self.old.taken }
        ensures number { (result ≡ Ok true ⊎ result ≡ Err Fault) → self.new.number ≡ self.old.number + 1 }
        ensures shorter { IfOk result (λ more. IsTrue more → self.old.taken < self.new.taken) }
        ensures within { OnOk result (self.new.taken ≤ 16777216) }
    {
        let most = (MAX_INPUT + 1 - self.taken).min(MAX_LINE + 1);
        let taken = take_line(&mut self.octets, most, line)?;
        if taken == 0 {
            return Ok(false);
        }
        self.taken += taken;
        self.number += 1;
        strip_feed(line);
        if self.taken > MAX_INPUT || line.len() > MAX_LINE {
            return Err(ScriptError::Fault);
        }
        Ok(true)
    }
}

/// Reads up to and including the next line feed into `line`: at most `most` bytes, and none at the end. Returns how
/// many bytes it read.
fn take_line<R: Read + Drop>(
    octets: &mut Octets<R>,
    most: usize,
    line: &mut Vec<u8>,
) -> io::Result<usize>
    ensures line { OnOk result
        (IfSome (octets_of R.remaining octets.old) (λ xs. line.new.items ≡ take most (take_through 0x0A xs))) }
    ensures rest { IfOk result (λ n.
        IfSome (octets_of R.remaining octets.old) (λ xs. octets_of R.remaining octets.new ≡ Some (drop n xs))) }
    ensures count { IfOk result (λ n. n ≡ length line.new.items) }
    ensures most { IfOk result (λ n. n ≤ most) }
{
    line.clear();
    for taken in 0..most {
        let Some(octet) = octets.next()? else {
            return Ok(taken);
        };
        line.push(octet)?;
        if octet == b'\n' {
            return Ok(taken + 1);
        }
    }
    Ok(most)
}

/// Removes the line feed at the end of a line.
fn strip_feed(line: &mut Vec<u8>)
    ensures { line.new.items ≡ strip_last 0x0A line.old.items }
{
    if line.last() == Some(&b'\n') {
        line.pop();
    }
}
