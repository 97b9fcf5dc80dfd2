// One fragment of a text read as a whole (document 01, "Fragments"; S8.7.8.3): its heading, and its text in lent bytes.
ghost use Rattle.std.specs.Prelude.{◌≡◌, length};
ghost use Rattle.refusal.specs.Told.{told_by};
ghost use Rattle.fragment.specs.Answers.{read_of, read_after};
ghost use Rattle.fragment.specs.FlatAnswers.{of_heading};

use crate::FragmentHeading;
use refusal::Refusal;

// A fragment read: its heading, and its text in the lent bytes; or the first refusal, and the bytes as they were.
pub fn read(words: &[u32], text: &mut [u8]) -> Result<FragmentHeading, Refusal>
    ensures told { told_by of_heading result ≡ read_of (length text.old) words.now }
    ensures buffer { text.new ≡ read_after words.now text.old }
{
    let heading = crate::head::heading(words)?;
    crate::text::write_text(words, text)?;
    Ok(heading)
}
