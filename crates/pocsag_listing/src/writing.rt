// What is written: each text goes to a writer, which keeps it until there is no room for more.
// The other programs have such functions of their own: each is one call of the library with a context, and one crate for them
// would be no plainer.
ghost use Rattle.std.specs.Prelude.{◌≡◌, take, drop, OnOk};
ghost use Rattle.std.specs.Io.KnownBytes.{Appends, Keeps};
ghost use Rattle.lister.specs.Lines.{shown_byte, shown};
ghost use Rattle.pocsag_listing.specs.Said.{meaning};

use anyhow::{Context, Result};
use std::io::Write;

// Writes all that was kept, or says why not.
pub(crate) fn flush<W: Write>(writer: &mut W) -> Result<()>
    ensures { Keeps (W.contents writer.old) (W.contents writer.new) }
{
    writer.flush().context("standard output")
}

// Puts a text, or says why not.
pub(crate) fn put<W: Write>(writer: &mut W, text: &[u8]) -> Result<()>
    ensures { OnOk result (Appends (W.contents writer.old) (W.contents writer.new) text.now) }
{
    writer.write_all(text).context("standard output")
}

// The first of a row, so many or all if it has no more.
pub(crate) fn first<T>(row: &[T], count: usize) -> &[T]
    ensures { result.now ≡ take count row.now }
{
    row.get(..count).unwrap_or(row)
}

// The rest of a row, after so many.
pub(crate) fn rest<T>(row: &[T], count: usize) -> &[T]
    ensures { result.now ≡ drop count row.now }
{
    row.get(count..).unwrap_or(&[])
}

// Puts a byte as it is shown.
fn put_byte<W: Write>(writer: &mut W, byte: u8) -> Result<()>
    ensures { OnOk result (Appends (W.contents writer.old) (W.contents writer.new) (shown_byte byte)) }
{
    put(writer, pocsag_lister::shown_byte(byte).as_slice())
}

// Puts a text as it is shown.
pub(crate) fn put_shown<W: Write>(writer: &mut W, text: &[u8]) -> Result<()>
    ensures { OnOk result (Appends (W.contents writer.old) (W.contents writer.new) (shown text.now)) }
{
    for byte in text {
        put_byte(writer, *byte)?;
    }
    Ok(())
}

// Puts what a refusal means after what it is of, and what there is to add.
pub(crate) fn put_meaning<W: Write>(writer: &mut W, number: u32, hint: &str) -> Result<()>
    ensures { OnOk result (Appends (W.contents writer.old) (W.contents writer.new) (meaning number hint.now)) }
{
    let sentence = refusal::in_words(number);
    write!(writer, ": {sentence}{hint}").context("standard output")
}
