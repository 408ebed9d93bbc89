//! Properties of whole streams: laws over the definitions that `Splitter` and `frame` meet.
ghost use Rattle.std.specs.Prelude.{ℕ, List};
ghost use Rattle.framing.specs.Messages.{CutsWhatWasFramed, HasCutting, HasOneCutting};
ghost use Rattle.framing.specs.Pieces.{IsSameInPieces, IsSameInTwo};
ghost use Rattle.framing.specs.Splitting.{Splitting};

/// A stream is cut into messages in exactly one way.
pub fn one_cutting()
    // Promise (cut, only): each stream is cut into messages in one way, in whatever pieces it comes; messages that are
    // framed one after another are cut into the same messages.
    ensures cut { HasCutting }
    ensures only { HasOneCutting }
{}

/// Cutting undoes framing.
pub fn cuts_what_was_framed()
    // Promise, as one_cutting: each stream is cut ..
    ensures { CutsWhatWasFramed }
{}

/// It makes no difference to the messages whether a piece comes as one or as two.
pub fn two_pieces()
    // Promise, as one_cutting: each stream is cut ..
    ensures { (s : Splitting) (first second : List ℕ) → IsSameInTwo s first second }
{}

/// The messages and the error of a stream don't depend on the pieces in which it comes.
pub fn any_pieces()
    // Promise, as one_cutting: each stream is cut ..
    ensures { (greatest : ℕ) (pieces : List (List ℕ)) → IsSameInPieces greatest pieces }
{}
