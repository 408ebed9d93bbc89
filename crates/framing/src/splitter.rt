//! Cuts a stream into messages as it comes in.
ghost use Rattle.std.specs.Prelude.{◌≡◌, ◌≢◌, [], None, Some, Ok, Err, IfOk, IfErr, IfSome, OnOk, OnErr};
ghost use Rattle.framing.specs.Messages.{message_then, only_rest};
ghost use Rattle.framing.specs.Splitting.{fed, handed_out, left, started};
ghost use Rattle.framing.specs.declared.fault.FrameFault.TheVariants.{Memory};

use crate::fault::FrameFault;
use crate::front::{PREFIX, first_message};
use std::alloc::{AllocError, Global};
use std::marker::Model;

/// The bytes of a stream that were not yet returned as messages, and the error that ended the stream, if any.
#[derive(Drop)]
pub struct Splitter {
    greatest: u32,
    bytes: Vec<u8>,
    /// Where the bytes start that were not yet returned.
    start: usize,
    /// The error that was returned, if any. It is never `Memory`.
    fault: Option<FrameFault>,
}

impl Model for Splitter {
    ghost use Rattle.std.specs.Prelude.{◌≢◌, ◌≤◌, drop, length, Some};
    ghost use Rattle.framing.specs.declared.fault.FrameFault.TheVariants.{Memory};
    ghost use Rattle.framing.specs.Splitting.{Splitting};

    ghost Value = { Splitting };

    ghost view = { λ s. record { greatest = s.greatest; bytes = drop s.start s.bytes.items; fault = s.fault } };

    ghost invariant = { λ s. (s.start ≤ length s.bytes.items) × (s.fault ≢ Some Memory) };
}

impl Splitter {
    /// Returns a splitter for a new stream with messages of at most `greatest` bytes. It allocates nothing yet.
    pub fn new(alloc: Global, greatest: u32) -> Splitter
        ensures { result ≡ started greatest }
    {
        Splitter {
            greatest,
            bytes: Vec::new(alloc),
            start: 0,
            fault: None,
        }
    }

    /// Adds the next piece of the stream. After an error it adds nothing. An `Err` changes nothing.
    pub fn feed(&mut self, piece: &[u8]) -> Result<(), AllocError>
        // Promise (ok, err): what is fed is appended; after an error nothing is.
        ensures ok { OnOk result (self.new ≡ fed self.old piece.now) }
        ensures err { OnErr result (self.new ≡ self.old) }
    {
        if self.fault.is_some() {
            return Ok(());
        }
        self.compact();
        self.bytes.extend_from_slice(piece)
    }

    /// Returns the bytes that were not yet returned.
    fn waiting(&self) -> &[u8]
        ensures { result.now ≡ self.now.bytes }
    {
        &self.bytes[self.start..]
    }

    /// Removes the returned bytes from the front, if they are at least as many as the rest, which has to move. So in
    /// total no more bytes are moved than returned.
    fn compact(&mut self)
        ensures { self.new ≡ self.old }
    {
        let left = self.waiting().len();
        if self.start >= left {
            self.bytes.copy_within(self.start.., 0);
            self.bytes.truncate(left);
            self.start = 0;
        }
    }

    /// Returns the next message once all of it is there. After a bad length every call returns the same error. Running
    /// out of memory changes nothing.
    pub fn next(&mut self, alloc: Global) -> Result<Option<Vec<u8>>, FrameFault>
        // A message is the first of those that are there.
        // Promise (message, rest, none, left, settled): the first message of the stream is returned, or `None` if less
        // than a whole message is there.
        ensures message { IfOk result (λ found. IfSome found
            (λ message. handed_out self.old ≡ message_then message.items (handed_out self.new))) }
        // Without one, the bytes are less than a message, and stay.
        ensures rest { result ≡ Ok None → handed_out self.old ≡ only_rest self.old.bytes None }
        ensures none { result ≡ Ok None → self.new ≡ self.old }
        // Returning a message doesn't change what is left in the end. Without a message, that is the current state.
        ensures left { IfOk result (λ _. left self.new ≡ left self.old) }
        ensures settled { result ≡ Ok None → self.new ≡ left self.old }

        // Promise (fault, again): a bad length is returned as an error once no message is before it; from then on every
        // call returns the same error.
        ensures fault { IfErr result (λ fault. fault ≢ Memory
            → handed_out self.old ≡ only_rest self.old.bytes (Some fault)) }
        ensures again { IfErr result (λ fault. fault ≢ Memory → self.new ≡ record self.old { fault = Some fault }) }
        // Memory can run out only if there is a message.
        // Promise (memory, wanted): running out of memory changes nothing, and happens in `next` only if a whole
        // message is there.
        ensures memory { result ≡ Err Memory → self.new ≡ self.old }
        ensures wanted { result ≡ Err Memory → (handed_out self.old).messages ≢ [] }
    {
        if let Some(fault) = self.fault {
            return Err(fault);
        }
        match first_message(self.waiting(), self.greatest) {
            Ok(Some(message)) => {
                let message = Vec::from_slice(alloc, message)?;
                self.start += PREFIX + message.len();
                Ok(Some(message))
            }
            Ok(None) => Ok(None),
            Err(fault) => {
                self.fault = Some(fault);
                Err(fault)
            }
        }
    }
}
