// The sums of messages, as C and Rust link them. Every function takes any row, and its contract is that of the
// function it calls.
ghost use Rattle.std.specs.Prelude.{◌≡◌, ◌≤◌};
ghost use Rattle.sums.specs.Sums.{six_bits, ten_bits, signature_of};

// K of a numeric page, 0 to 63: K0 to K3 belong into the vector, K4 and K5 into the first word, whose two lowest bits
// are taken as 0.
// Takes the words of the page.
// Answers K.
// Refuses nothing.
#[unsafe(no_mangle)]
pub extern "C" fn mortisevane_sum_six_bit(words: &[u32]) -> u32
    ensures sum { result ≡ six_bits words.now }
    ensures small { result ≤ 63 }
{
    sums::six_bit(words)
}

// K of a fragment, 0 to 1023: the ten lowest bits of its first word are taken as 0.
// Takes the words of the fragment.
// Answers K.
// Refuses nothing.
#[unsafe(no_mangle)]
pub extern "C" fn mortisevane_sum_ten_bit(words: &[u32]) -> u32
    ensures { result ≡ ten_bits words.now }
{
    sums::ten_bit(words)
}

// The signature of a text with its fill, 0 to 127.
// Takes the characters, fill with them.
// Answers the signature.
// Refuses nothing.
#[unsafe(no_mangle)]
pub extern "C" fn mortisevane_sum_signature(characters: &[u8]) -> u32
    ensures { result ≡ signature_of characters.now }
{
    sums::signature(characters)
}
