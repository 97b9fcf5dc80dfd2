// An input from its first byte to its end: portions are read, their words are collected and heard, and at the end what is
// left is reported, and the page that is still open.
ghost use Rattle.std.specs.Prelude.{◌≤◌, ◌<◌, length, vec_len};

use crate::telling::Listing;
use crate::writing::{first, rest};
use anyhow::{Context, Result};
use pocsag_lister::{Collected, Input, Left, Token, WrongRun, word_heard};
use std::io::{Read, Write};

// An input that is being listed: its listing, and the row that the words of a portion are collected in.
#[derive(Drop)]
pub struct Reading<W: Write + Drop> {
    pub listing: Listing<W>,
    pub row: Vec<u32>,
    pub ghost room: { 0 < vec_len row },
}

// Collects words from a portion.
fn collect<I: Input>(token: Token, input: &[u8], row: &mut [u32]) -> Collected
    requires row_nonzero { 0 < length row.old }
    requires input_nonzero { 0 < length input.now }
    ensures { (0 < result.taken) × (result.taken ≤ length input.now) }
{
    pocsag_lister::collect::<I>(token, input, row)
}

// Hears a run of characters: its word, or the one that is heard for it if it is none.
fn hear_run<W: Write + Drop>(
    listing: &mut Listing<W>,
    run: std::result::Result<u32, WrongRun>,
) -> Result<()> {
    listing.hear(run.err(), &[word_heard(run)])
}

impl<W: Write + Drop> Reading<W> {
    // Hears what was collected: the words, and the run of characters after them that is none, if there is one.
    fn hear_collected(&mut self, collected: Collected) -> Result<()> {
        self.listing.hear(None, first(&self.row, collected.count))?;
        match collected.wrong {
            Some(wrong) => hear_run(&mut self.listing, Err(wrong)),
            None => Ok(()),
        }
    }

    // Lists a portion, and answers how far its reading is. Each turn tells how many bytes it took.
    fn list_portion<I: Input>(&mut self, start: Token, input: &[u8]) -> Result<Token> {
        let mut token = start;
        let mut left = input;
        while !left.is_empty() {
            let collected = collect::<I>(token, left, &mut self.row);
            token = collected.token;
            self.hear_collected(collected)?;
            left = rest(left, collected.taken);
        }
        Ok(token)
    }

    // Reads a portion and lists it. The end of the input is a read of no bytes, and gives nothing.
    fn list_read<I: Input, R: Read>(
        &mut self,
        token: Token,
        reader: &mut R,
        input: &mut [u8],
    ) -> Result<Option<Token>> {
        let n = reader.read(input).context("standard input")?;
        if n == 0 {
            return Ok(None);
        }
        let next = self.list_portion::<I>(token, &input[..n])?;
        self.listing.flush()?;
        Ok(Some(next))
    }

    // Lists all that can be read. A loop has to end, and nothing says that an input does: the turns are counted, up to a
    // number that no run reaches.
    fn list_reads<I: Input, R: Read>(&mut self, reader: &mut R, input: &mut [u8]) -> Result<Token> {
        let mut token = pocsag_lister::start();
        for _ in 0..u64::MAX {
            match self.list_read::<I, R>(token, reader, input)? {
                Some(next) => token = next,
                None => return Ok(token),
            }
        }
        Ok(token)
    }

    // Lists what is left at the end of the input.
    fn list_left<I: Input>(&mut self, token: Token) -> Result<()> {
        match I::left(token) {
            Some(Left::Run(run)) => hear_run(&mut self.listing, run),
            Some(Left::Bytes { refusal, .. }) => self.listing.report_bytes(token, refusal),
            None => Ok(()),
        }
    }

    // Lists an input from its first byte to its end.
    pub(crate) fn list_all<I: Input, R: Read>(
        &mut self,
        reader: &mut R,
        input: &mut [u8],
    ) -> Result<()> {
        let token = self.list_reads::<I, R>(reader, input)?;
        self.list_left::<I>(token)?;
        self.listing.close()
    }
}
