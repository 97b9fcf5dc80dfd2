// The two sets of characters of numeric pages, the columns of Table 39 (02, item 6).
ghost use Rattle.std.specs.Prelude.{◌≡◌, slice_get};
ghost use Rattle.numeric.specs.Pages.{in_set};
ghost use Rattle.numeric.specs.Sets.{set_in, code_in, Chooses};

use refusal::Refusal;

// The characters that the codes of a page stand for: one of the two columns of Table 39. Nothing in a page says by which
// its sender wrote it, so a pager is set to it.
#[derive(Clone, Copy, Debug, PartialEq, Eq)]
pub enum CharacterSet {
    // The option of Table 39 is off.
    Standard,
    // It is on.
    Chinese,
}

// The sets as numbers, by which the C interface chooses.
impl CharacterSet {
    // Table 39 with the option off: digits, `?` for the spare code, `U`, space, `-`, `]`, `[`.
    pub const STANDARD: u32 = 0;

    // Table 39 with the option of the People's Republic of China on: A to E for `?`, `U`, `-`, `]`, `[`.
    pub const CHINESE: u32 = 1;

    // The character of a code: each has a row of Table 39, with the option off and on. A code over 15 has none.
    #[tactic(auto, unfolding(crate::specs::Pages::standard_set, crate::specs::Pages::chinese_set))]
    pub fn character_of(self, code: u32) -> Option<u8>
        ensures { result ≡ slice_get (set_in self) code }
    {
        let (standard, chinese) = match code {
            0 => (b'0', b'0'),
            1 => (b'1', b'1'),
            2 => (b'2', b'2'),
            3 => (b'3', b'3'),
            4 => (b'4', b'4'),
            5 => (b'5', b'5'),
            6 => (b'6', b'6'),
            7 => (b'7', b'7'),
            8 => (b'8', b'8'),
            9 => (b'9', b'9'),
            10 => (b'?', b'A'),
            11 => (b'U', b'B'),
            12 => (b' ', b' '),
            13 => (b'-', b'C'),
            14 => (b']', b'D'),
            15 => (b'[', b'E'),
            _ => return None,
        };
        match self {
            CharacterSet::Standard => Some(standard),
            CharacterSet::Chinese => Some(chinese),
        }
    }

    // The code of a character, if the set has it. A match compiles to a jump, and a search of the sixteen to a loop.
    #[tactic(auto, unfolding(crate::specs::Pages::standard_set, crate::specs::Pages::chinese_set, laws::specs::Lists::place_in))]
    pub(crate) fn code_of(self, character: u8) -> Option<u32>
        ensures { result ≡ code_in (set_in self) character }
    {
        if character.is_ascii_digit() {
            return Some((character - b'0') as u32);
        }
        match self {
            CharacterSet::Standard => match character {
                b' ' => Some(12),
                b'?' => Some(10),
                b'U' => Some(11),
                b'-' => Some(13),
                b']' => Some(14),
                b'[' => Some(15),
                _ => None,
            },
            CharacterSet::Chinese => match character {
                b' ' => Some(12),
                b'A' => Some(10),
                b'B' => Some(11),
                b'C' => Some(13),
                b'D' => Some(14),
                b'E' => Some(15),
                _ => None,
            },
        }
    }

    // 01's table, 18: whether every character is in the set.
    pub(crate) fn has_all(self, text: &[u8]) -> bool
        ensures { result ≡ in_set (set_in self) text.now }
    {
        text.iter()
            .all(|character| self.code_of(*character).is_some())
    }
}

impl TryFrom<u32> for CharacterSet {
    type Error = Refusal;

    ghost try_from_gives = { Chooses };

    fn try_from(set: u32) -> Result<Self, Refusal> {
        match set {
            CharacterSet::STANDARD => Ok(CharacterSet::Standard),
            CharacterSet::CHINESE => Ok(CharacterSet::Chinese),
            _ => Err(Refusal::Packet),
        }
    }
}
