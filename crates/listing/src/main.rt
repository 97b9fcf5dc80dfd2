// The listing program (document 01, "The listing program"): CAPCODE lines from standard input, their
// listing to standard output. Lines may have any bytes and any length; what the last line feed leaves
// after it is a line too.
#![tactic(auto)]

ghost use Rattle.std.specs.Prelude.{◌≡◌, ◌≤◌, ◌<◌, length, take, vec_len, IfOk, OnOk};
ghost use Rattle.std.specs.Io.KnownBytes.{Appends};
ghost use Rattle.lister.specs.Stands.{stand_of, fresh};
ghost use Rattle.lister.specs.Texts.{header};
ghost use Rattle.lister.specs.Portions.{writes_all, next_all, closes};
ghost use Rattle.listing.specs.Runs.{WentOnce, WentOn, Listed};

use anyhow::{Context, Result};
use lister::Lister;
use std::alloc::Global;
use std::io::{Read, Write};

// How many bytes are read at a time, and how many bytes of the listing are written at a time.
const PORTION: usize = 65536;

// The room for a line that is written by itself.
const LINE: usize = 4096;

// A listing that is under way: where it stands, and the buffer for a part of what is written.
#[derive(Drop)]
struct Listing {
    lister: Lister,
    out: Vec<u8>,
    ghost room: { vec_len out ≡ 65536 },
}

impl Listing {
    // Lists as many bytes as the buffer has room for, writes their listing, and gives how many they are.
    fn list_some<W: Write>(&mut self, input: &[u8], writer: &mut W) -> Result<usize>
        ensures taken_in_bounds { IfOk result (λ taken. taken ≤ length input.now) }
        ensures taken_nonzero { IfOk result (λ taken. 0 < length input.now → 0 < taken) }
        ensures stands { IfOk result (λ taken. stand_of self.new.lister ≡ next_all (stand_of self.old.lister) (take taken input.now)) }
        ensures wrote { IfOk result (λ taken. Appends (W.contents writer.old) (W.contents writer.new)
            (writes_all (stand_of self.old.lister) (take taken input.now))) }
    {
        let fed = lister::feed(self.lister, input, &mut self.out);
        write(&self.out[..fed.written], writer)?;
        self.lister = fed.lister;
        Ok(fed.taken)
    }

    // Lists a portion: each turn takes as many bytes as there is room for, which no iterator tells before.
    fn list_portion<W: Write>(&mut self, input: &[u8], writer: &mut W) -> Result<()>
        ensures stands { OnOk result (stand_of self.new.lister ≡ next_all (stand_of self.old.lister) input.now) }
        ensures wrote { OnOk result (Appends (W.contents writer.old) (W.contents writer.new) (writes_all (stand_of self.old.lister) input.now)) }
    {
        let mut rest = input;
        while !rest.is_empty() {
            let taken = self.list_some(rest, writer)?;
            rest = &rest[taken..];
        }
        Ok(())
    }

    // Reads a portion and lists it, and says whether to read on. The end of the input is a read of no bytes.
    fn list_read<R: Read, W: Write>(
        &mut self,
        reader: &mut R,
        input: &mut [u8],
        writer: &mut W,
    ) -> Result<bool>
        ensures { IfOk result (λ goes_on. 0 < length input.old
            → WentOnce (R.remaining reader.old) (R.remaining reader.new) (stand_of self.old.lister) (stand_of self.new.lister)
            (W.contents writer.old) (W.contents writer.new) goes_on) }
    {
        let n = reader.read(input).context("standard input")?;
        self.list_portion(&input[..n], writer)?;
        Ok(0 < n)
    }

    // Lists all that can be read into a lent buffer. A loop has to end, and nothing says that an input does: the turns are
    // counted, up to a number that no run reaches.
    fn list_reads<R: Read, W: Write>(
        &mut self,
        reader: &mut R,
        input: &mut [u8],
        writer: &mut W,
    ) -> Result<()>
        ensures { OnOk result (0 < length input.old
            → WentOn (R.remaining reader.old) (R.remaining reader.new) (stand_of self.old.lister) (stand_of self.new.lister)
            (W.contents writer.old) (W.contents writer.new)) }
    {
        for _ in 0..u64::MAX {
            let goes_on = self.list_read(reader, input, writer)?;
            if !goes_on {
                return Ok(());
            }
        }
        Ok(())
    }
}

// Writes a part of the listing, or says why not. The other programs have such a function of their own: it is one call of the
// library with a context.
fn write<W: Write>(text: &[u8], writer: &mut W) -> Result<()>
    ensures { OnOk result (Appends (W.contents writer.old) (W.contents writer.new) text.now) }
{
    writer.write_all(text).context("standard output")
}

// Lists all that can be read, and gives where the listing then stands. The buffers are made once, so that an input of any
// length takes the same memory.
fn list_all<R: Read, W: Write>(alloc: Global, reader: &mut R, writer: &mut W) -> Result<Lister>
    ensures { IfOk result (λ after. WentOn (R.remaining reader.old) (R.remaining reader.new) fresh (stand_of after)
        (W.contents writer.old) (W.contents writer.new)) }
{
    let mut input = vec![in alloc; 0u8; PORTION]?;
    let mut listing = Listing {
        lister: lister::start(),
        out: vec![in alloc; 0u8; PORTION]?,
    };
    listing.list_reads(reader, &mut input, writer)?;
    Ok(listing.lister)
}

// Writes the listing's first line.
fn write_title<W: Write>(writer: &mut W) -> Result<()>
    ensures { OnOk result (Appends (W.contents writer.old) (W.contents writer.new) header) }
{
    let mut out = [0u8; LINE];
    let n = lister::title(&mut out).unwrap();
    write(&out[..n], writer)
}

// Writes the end of the last line.
fn write_close<W: Write>(lister: Lister, writer: &mut W) -> Result<()>
    ensures { OnOk result (Appends (W.contents writer.old) (W.contents writer.new) (closes (stand_of lister))) }
{
    let mut out = [0u8; LINE];
    let n = lister::close(lister, &mut out).unwrap();
    write(&out[..n], writer)
}

// Lists an input from its first byte to its end.
fn list<R: Read, W: Write>(alloc: Global, reader: &mut R, writer: &mut W) -> Result<()>
    ensures { OnOk result (Listed (R.remaining reader.old) (R.remaining reader.new) (W.contents writer.old) (W.contents writer.new)) }
{
    write_title(writer)?;
    let lister = list_all(alloc, reader, writer)?;
    write_close(lister, writer)
}

fn main(rt: HostRuntime) -> Result<()> {
    list(rt.alloc(), &mut rt.stdin(), &mut rt.stdout())
}
