//! The words of a refusal.

ghost use Rattle.std.specs.Prelude.{◌≡◌, ◌≤◌, ◌++◌, IfOk, OnErr, length, take};
ghost use Rattle.bac_tag.specs.Octets.{Extends};
ghost use Rattle.bac_explain.specs.Words.{refused_words, sentence_of};

use crate::appending::write_octets;
use bac_tag::{OutOfMemory, Why};
use bac_text::layers::write_word;

/// Returns what a reason means, after a colon.
fn sentence_of(why: Why) -> &'static str
    ensures { result.now ≡ sentence_of why }
{
    match why {
        Why::Short => ": the octets end, and more must come",
        Why::Trailing => ": the octets before it are whole",
        Why::Version => ": the version is 1",
        Why::Address => ": a source address has octets",
        Why::PduType => ": no APDU has this type",
        Why::Window => ": a window is 1 to 127",
        Why::Tag => ": a tag that cannot be here",
        Why::Length => ": a length that cannot be here",
        Why::Content => ": contents that no value has here",
        Why::Depth => ": a group inside too many others",
        Why::NotCanonical => ": tolerated, and not canonical",
        Why::OutOfMemory => ": memory was refused",
    }
}

/// Writes why octets are refused: an arrow, the reason, and what it means. Returns where that ends.
pub(crate) fn write_reason(out: &mut Vec<u8>, at: usize, why: Why) -> Result<usize, OutOfMemory>
    requires { at ≤ length out.old.items }
    ensures text { IfOk result (λ end. take end out.new.items ≡ take at out.old.items ++ refused_words why) }
    ensures end { IfOk result (λ end. end ≤ length out.new.items) }
    ensures err { OnErr result (Extends (take at out.old.items) out.new.items) }
{
    let arrow = write_word(out, at, b"<- ")?;
    let name = write_octets(out, arrow, why.name().as_bytes())?;
    write_octets(out, name, sentence_of(why).as_bytes())
}
