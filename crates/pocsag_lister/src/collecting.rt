// The words of a portion of an input.
ghost use Rattle.std.specs.Prelude.{◌≡◌, length};
ghost use Rattle.laws.specs.Lists.{put};
ghost use Rattle.pocsag_lister.specs.Collecting.{words_of, as_collected};

use crate::{Collected, Input, Token};

// Collects the words of a portion into a row while it has room for them, up to the first run of characters that is none.
pub fn collect<I: Input>(start: Token, input: &[u8], row: &mut [u32]) -> Collected
    ensures told { result ≡ as_collected (words_of I.taken (length row.old) start input.now) }
    ensures row { row.new ≡ put row.old 0 (words_of I.taken (length row.old) start input.now).words }
{
    let mut token = start;
    let mut count = 0;
    for (taken, byte) in input.iter().enumerate() {
        if row.len() <= count {
            return Collected {
                token,
                taken,
                count,
                wrong: None,
            };
        }
        let step = I::take(token, *byte);
        token = step.token;
        match step.found {
            Some(Ok(word)) => {
                row[count] = word;
                count += 1;
            }
            Some(Err(wrong)) => {
                return Collected {
                    token,
                    taken: taken + 1,
                    count,
                    wrong: Some(wrong),
                };
            }
            None => {}
        }
    }
    Collected {
        token,
        taken: input.len(),
        count,
        wrong: None,
    }
}
