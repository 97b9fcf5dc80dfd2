// What stands before the characters of a numeric page (document 01, "Numeric pages"; Tables 41 and 42), and how many
// characters and words that leaves.
ghost use Rattle.std.specs.Prelude.{◌≡◌, ◌≤◌, ◌++◌, [], ◌∷◌, true};
ghost use Rattle.laws.specs.Layouts.{size, fit, fields_of, packed};
ghost use Rattle.numeric.specs.Pages.{head_of, room_of, words_for};
ghost use Rattle.numeric.specs.Answers.{flags_of, as_numbering};
ghost use Rattle.numeric.specs.Sets.{Heads};

use crate::Numbering;
use packet::Vector;
use refusal::Refusal;

// The head of a page, by the type of its vector: K5 and K4, and in a numbered page S, R and N before them.
#[derive(Clone, Copy, Debug, PartialEq, Eq)]
pub(crate) struct Head {
    pub(crate) numbered: bool,
}

// 01's table, 7: a type that is no numeric page's has no head.
impl TryFrom<u32> for Head {
    type Error = Refusal;

    ghost try_from_gives = { Heads };

    fn try_from(kind: u32) -> Result<Self, Refusal> {
        if !Vector::is_numeric(kind) {
            return Err(Refusal::Packet);
        }
        Ok(Head {
            numbered: kind == Vector::NUMBERED,
        })
    }
}

impl Head {
    // How many bits stand before the first character (Tables 41 and 42).
    pub(crate) fn size(self) -> usize
        ensures { result ≡ size (head_of self.numbered) }
    {
        if self.numbered { 10 } else { 2 }
    }

    // How many characters a page of so many words has room for.
    pub(crate) fn room(self, words: usize) -> usize
        requires le_words { 1 ≤ words }
        requires words_bound { words ≤ 8 }
        ensures { result ≡ room_of self.numbered words }
    {
        (21 * words - self.size()) / 4
    }

    // How many words so many characters need.
    pub(crate) fn words_for(self, characters: usize) -> usize
        requires { characters ≤ 41 }
        ensures { result ≡ words_for self.numbered characters }
    {
        (self.size() + 4 * characters + 20) / 21
    }

    // Whether the numbers S, R and N fit the head. A page that is not numbered has no bits for them.
    pub(crate) fn fits(self, n: Numbering) -> bool
        ensures { result ≡ fit (head_of self.numbered) (flags_of n ++ 0 ∷ []) }
    {
        if self.numbered {
            return (n.special_format < 2) & (n.retrieval < 2) & (n.message_number < 64);
        }
        (n.special_format < 1) & (n.retrieval < 1) & (n.message_number < 1)
    }

    // S, R and N at their places in the head, K as 0.
    #[tactic(auto, using(crate::proofs::Heads::head_is))]
    pub(crate) fn with(self, n: Numbering) -> u32
        requires { fit (head_of self.numbered) (flags_of n ++ 0 ∷ []) ≡ true }
        ensures { result ≡ packed (head_of self.numbered) (flags_of n ++ 0 ∷ []) }
    {
        n.special_format * 512 + n.retrieval * 256 + n.message_number * 4
    }

    // What the head of a numbered page says; of another nothing.
    pub(crate) fn numbering_in(self, first: u32) -> Numbering
        ensures { result ≡ as_numbering (fields_of (head_of self.numbered) first) }
    {
        if !self.numbered {
            return Numbering::default();
        }
        Numbering {
            message_number: (first >> 2) % 64,
            retrieval: (first >> 8) % 2,
            special_format: (first >> 9) % 2,
        }
    }
}
