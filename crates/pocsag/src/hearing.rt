// Rows of words, in portions of any size, and the close.
ghost use Rattle.std.specs.Prelude.{◌≡◌, length};
ghost use Rattle.pocsag.specs.Batches.{step_told};
ghost use Rattle.pocsag.specs.Hearing.{tells, heard_of, lent_heard, closed_page};

use crate::layout::laid_out;
use crate::{PocsagHeard, PocsagPage, PocsagReader, Step};

impl Step {
    // Whether a word has something to tell: a refusal, or a page that ended.
    fn tells(self) -> bool
        ensures { result ≡ tells (step_told self) }
    {
        self.told.is_err() | (self.page.is_ended != 0)
    }
}

// Takes words one after the other, up to and with the first that has something to tell: its number, or a page that ended at
// it. The rest of the words is to be given again. The tables are laid out once for all of them.
pub fn hear(reader: PocsagReader, words: &[u32], lent: &mut [u32]) -> PocsagHeard
    ensures told { result ≡ heard_of (length lent.old) reader words.now }
    ensures lent { lent.new ≡ lent_heard reader lent.old words.now }
{
    let tables = laid_out();
    let mut state = reader;
    for (i, word) in words.iter().enumerate() {
        let step = state.step(tables.mended(*word), lent);
        state = step.reader;
        if step.tells() {
            return PocsagHeard {
                number: crate::batch::number(step.told),
                taken: i + 1,
                page: step.page,
                reader: step.reader,
            };
        }
    }
    PocsagHeard {
        number: 0,
        taken: words.len(),
        page: PocsagPage::none(),
        reader: state,
    }
}

// The close: the page that was still open, if there was one. Its end was not heard.
pub fn close(reader: PocsagReader) -> PocsagPage
    ensures { result ≡ closed_page reader }
{
    reader.page(false, 0)
}
