//! The line that a line of a script prints.
ghost use Rattle.std.specs.Prelude.{OnOk};
ghost use Rattle.std.specs.Io.KnownBytes.{Appends};
ghost use Rattle.kdcd.specs.Script.{answer_text};

use principals::ChangeFault;
use std::alloc::Global;
use std::io;
use std::io::Write;

/// The result of a line, which it prints.
#[derive(Drop)]
pub(crate) enum Answer {
    Done,
    Refused(ChangeFault),
    Reply(Vec<u8>),
    NoReply,
}

impl Answer {
    /// Writes the result as a line.
    pub(crate) fn print<W: Write>(&self, alloc: Global, writer: &mut W) -> io::Result<()>
        // Promise, as print_fault: an answer prints its ..
        ensures { OnOk result (Appends (W.contents writer.old) (W.contents writer.new) (answer_text self.now)) }
    {
        match self {
            Answer::Done => writeln!(writer, "ok"),
            Answer::Refused(fault) => writeln!(writer, "refused {}", fault.name()),
            Answer::Reply(reply) => {
                let digits = hex::encode(alloc, reply.as_slice())?;
                writeln!(writer, "reply {digits}")
            }
            Answer::NoReply => writeln!(writer, "none"),
        }
    }
}
