// The sentences for people: what a refusal means, and where a CAPCODE's text goes wrong. They stand in one table, so that all
// programs say the same.
ghost use Rattle.std.specs.Prelude.{◌≡◌, ◌≤◌, ℕ, List, [], length, get_or, map};
ghost use Rattle.std.specs.Borrow.{Bor};
ghost use Rattle.refusal.specs.Sentences.{sentence_at};

// The table. Row n is that of refusal n up to 39, and a refusal that has no sentence has an empty row. The rows from 40 on are
// those of a CAPCODE's text that goes wrong (`Advice` in `capcode`).
const SENTENCES: [&str; 53] = [
    "",
    "the lent memory is too short",
    "the state that was handed back is outside its limits",
    "the text is not in the form of a CAPCODE",
    "the letter is all-phase, which the decoder does not support",
    "the address is in no accepted range",
    "the address is below the offset of its letter",
    "the packet or a field is not as its table says",
    "the address number is over 31",
    "the count or the span is outside the limits",
    "a word is in error",
    "K is not the sum of the words",
    "no slot or call is free",
    "no chain of this key is open",
    "it is not the next one, or came before",
    "the text is longer than the room for it",
    "the text's total is not that of its message",
    "no open call awaits it",
    "a character is not in the set",
    "a digit that cannot stand here: A to L take one digit or none, U to Z 000 to 127 and one more",
    "a 4 at the start: no digit means 4, so leave it out",
    "the text stops too soon, or has a digit too many after the letter",
    "",
    "",
    "",
    "beyond repair: more bits are wrong than can be mended",
    "no sync word stood where one had to",
    "",
    "",
    "",
    "",
    "",
    "",
    "",
    "",
    "",
    "",
    "",
    "",
    "",
    "the line is empty",
    "the text ends before its letter",
    "too few digits: an address up to 2031614 has seven, its zeros written",
    "too few digits: an address over 2031614 has ten, its zeros written",
    "a digit too many: an address up to 2031614 has seven digits",
    "a digit too many: no address has more than ten digits",
    "the file begins with a byte-order mark: save it as plain text",
    "a blank at the end",
    "a blank: a CAPCODE has none",
    "lower case: write ",
    "the letter O: write the digit 0",
    "A to L take one digit or none before them, U to Z three frame digits and a collapse digit",
    "no CAPCODE has this character here",
];

// The text in a row of a table, or an empty one where there is no such row.
fn text_at(table: &[&'static str], row: u32) -> &'static str
    ensures { result.now ≡ get_or (map (λ (text : Bor (List ℕ)). text.now) table.now) row [] }
{
    match table.get(row as usize) {
        Some(text) => text,
        None => "",
    }
}

// The sentence of a row of the table: row n up to 39 is that of refusal n. A row that is not there has none.
pub fn in_words(row: u32) -> &'static str
    ensures words { result.now ≡ sentence_at row }
    ensures short { length result.now ≤ 96 }
{
    text_at(&SENTENCES, row)
}
