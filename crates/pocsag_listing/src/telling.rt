// What is reported of words: the pages that end, and the words that are refused. Words that are refused with the same number,
// one after the other, are reported in one line, which is put before anything else that is reported after them.
//
// `is_ended` and the numbers of words and pages are no Option and no Result, since `pocsag` answers the C interface's structs
// as they are.
ghost use Rattle.std.specs.Prelude.{◌≡◌, ◌≤◌, ◌<◌, length, OnOk};
ghost use Rattle.std.specs.Io.KnownBytes.{Appends, Keeps};
ghost use Rattle.pocsag_listing.specs.Said.{title, waiting_told};

use crate::lines::{Row, Unit, report_row, report_run};
use crate::pages::{Memory, put_ended};
use crate::writing::{flush, put, rest};
use crate::{Options, Totals};
use anyhow::Result;
use pocsag::{PocsagHeard, PocsagPage, PocsagReader};
use pocsag_lister::{Token, WrongRun};
use refusal::Refusal;
use std::io::Write;

// A listing: where it is written, and how; the memory that it needs; how far the words are read; the refused words that are
// not reported yet, if there are any; and what there was so far.
#[derive(Drop)]
pub struct Listing<W: Write + Drop> {
    pub writer: W,
    pub options: Options,
    pub memory: Memory,
    pub reader: PocsagReader,
    pub waiting: Option<Row>,
    pub totals: Totals,
}

impl<W: Write + Drop> Listing<W> {
    // Puts the title.
    pub(crate) fn put_title(&mut self) -> Result<()>
        ensures listed { OnOk result (Appends (W.contents self.old.writer) (W.contents self.new.writer) title) }
        ensures kept { (self.new.memory.words ≡ self.old.memory.words) × (self.new.memory.text ≡ self.old.memory.text) }
    {
        put(
            &mut self.writer,
            b"ADDRESS FUNCTION KIND MENDED FILL TEXT\n",
        )
    }

    // Hears words, and reports what there is to report. If they are the one that is heard for a run of characters that is no
    // word, the run is reported and not the word. Each turn tells how many words it took.
    pub(crate) fn hear(&mut self, run: Option<WrongRun>, words: &[u32]) -> Result<()> {
        let mut left = words;
        while !left.is_empty() {
            let heard = hear(self.reader, left, &mut self.memory.words);
            self.report_heard(run, heard)?;
            left = rest(left, heard.taken);
        }
        Ok(())
    }

    // Reports what was heard up to a word.
    fn report_heard(&mut self, run: Option<WrongRun>, heard: PocsagHeard) -> Result<()>
        ensures kept { self.new.memory.words ≡ self.old.memory.words }
    {
        self.reader = heard.reader;
        self.totals.words = self.totals.words.saturating_add(heard.taken as u64);
        self.report_page(heard.page)?;
        if heard.number == 0 {
            return Ok(());
        }
        self.report_word(run, heard.number)
    }

    // Reports a page, if one ended.
    fn report_page(&mut self, page: PocsagPage) -> Result<()>
        ensures kept { self.new.memory.words ≡ self.old.memory.words }
    {
        if page.is_ended == 0 {
            return Ok(());
        }
        self.report_waiting()?;
        put_ended(&mut self.writer, page, self.options, &mut self.memory)?;
        self.totals.count_page(page);
        Ok(())
    }

    // Reports the word that was heard last, which is refused.
    fn report_word(&mut self, run: Option<WrongRun>, number: u32) -> Result<()>
        ensures kept { (self.new.memory.words ≡ self.old.memory.words) × (self.new.memory.text ≡ self.old.memory.text) }
    {
        let word = self.totals.words.saturating_sub(1);
        self.totals.refused_words = self.totals.refused_words.saturating_add(1);
        match run {
            Some(run) => {
                self.report_waiting()?;
                report_run(&mut self.writer, run, word, self.options.is_explained)
            }
            None => self.report_later(number, word),
        }
    }

    // Keeps a word to be reported, after those that are kept or as the first.
    fn report_later(&mut self, number: u32, word: u64) -> Result<()>
        ensures kept { (self.new.memory.words ≡ self.old.memory.words) × (self.new.memory.text ≡ self.old.memory.text) }
    {
        match self.waiting {
            Some(row) if row.goes_on(number, word) => {
                self.waiting = Some(Row { last: word, ..row });
                Ok(())
            }
            _ => {
                self.report_waiting()?;
                self.waiting = Some(Row {
                    unit: Unit::Word,
                    first: word,
                    last: word,
                    number,
                });
                Ok(())
            }
        }
    }

    // Reports the refused words that are not reported yet, if there are any.
    fn report_waiting(&mut self) -> Result<()>
        ensures listed { OnOk result (Appends (W.contents self.old.writer) (W.contents self.new.writer) (waiting_told self.old.options.is_explained self.old.waiting)) }
        ensures kept { (self.new.memory.words ≡ self.old.memory.words) × (self.new.memory.text ≡ self.old.memory.text) }
    {
        match self.waiting.take() {
            Some(row) => report_row(&mut self.writer, row, self.options.is_explained),
            None => Ok(()),
        }
    }

    // Reports the bytes that are left at the end of an input and make no word.
    pub(crate) fn report_bytes(&mut self, token: Token, refusal: Refusal) -> Result<()>
        ensures kept { (self.new.memory.words ≡ self.old.memory.words) × (self.new.memory.text ≡ self.old.memory.text) }
    {
        self.report_waiting()?;
        let row = Row {
            unit: Unit::Byte,
            first: token.at,
            last: token.place.saturating_sub(1),
            number: refusal.number(),
        };
        report_row(&mut self.writer, row, self.options.is_explained)?;
        self.totals.left = token.count;
        Ok(())
    }

    // Reports what there is after the last word: the page that is still open, and the words that are not reported yet.
    pub(crate) fn close(&mut self) -> Result<()> {
        self.report_page(pocsag::close(self.reader))?;
        self.report_waiting()?;
        self.flush()
    }

    // Writes all that was kept.
    pub(crate) fn flush(&mut self) -> Result<()>
        ensures written { Keeps (W.contents self.old.writer) (W.contents self.new.writer) }
        ensures kept { (self.new.memory.words ≡ self.old.memory.words) × (self.new.memory.text ≡ self.old.memory.text) }
    {
        flush(&mut self.writer)
    }
}

// Hears words up to the first that has something to report.
fn hear(reader: PocsagReader, words: &[u32], lent: &mut [u32]) -> PocsagHeard
    requires { 0 < length words.now }
    ensures { (0 < result.taken) × (result.taken ≤ length words.now) }
{
    pocsag::hear(reader, words, lent)
}
