// The answers as C has them: 01's number, 0 where nothing is refused, and beside it the values, which are all 0 after a
// refusal.
ghost use Rattle.std.specs.Prelude.{◌≡◌};
ghost use Rattle.refusal.specs.Told.{told_by};
ghost use Rattle.fragment.specs.FlatAnswers.{of_heading, as_fragment};
ghost use Rattle.fragment.specs.CutAnswers.{of_cut, as_cut};

use crate::{CutSize, FragmentHeading, FragmentRead, TextCut};
use refusal::Refusal;

impl From<Result<FragmentHeading, Refusal>> for FragmentRead {
    ghost from_gives = { λ answer read. read ≡ as_fragment (told_by of_heading answer) };

    fn from(answer: Result<FragmentHeading, Refusal>) -> FragmentRead {
        match answer {
            Ok(heading) => FragmentRead {
                number: 0,
                continued: heading.continued,
                fragment_number: heading.fragment_number,
                message_number: heading.message_number,
                retrieval: heading.retrieval,
                mail_drop: heading.mail_drop,
                signature: heading.signature,
                sum: heading.sum,
                characters: heading.characters,
            },
            Err(refusal) => FragmentRead {
                number: refusal.number(),
                continued: 0,
                fragment_number: 0,
                message_number: 0,
                retrieval: 0,
                mail_drop: 0,
                signature: 0,
                sum: 0,
                characters: 0,
            },
        }
    }
}

impl From<Result<CutSize, Refusal>> for TextCut {
    ghost from_gives = { λ answer cut. cut ≡ as_cut (told_by of_cut answer) };

    fn from(answer: Result<CutSize, Refusal>) -> TextCut {
        match answer {
            Ok(size) => TextCut {
                number: 0,
                fragments: size.fragments,
                words: size.words,
            },
            Err(refusal) => TextCut {
                number: refusal.number(),
                fragments: 0,
                words: 0,
            },
        }
    }
}
