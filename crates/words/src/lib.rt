// Eight-byte little-endian numbers in byte slices.
#![tactic(auto)]

ghost use Rattle.std.specs.Prelude.{◌≡◌, ◌+◌, ◌*◌, ◌≤◌, length};
ghost use Rattle.lists.specs.Tables.{front};
ghost use Rattle.words.specs.Words.{encode, word_at, with_word};

// The i-th number. By its bytes, which is one load: copy_from_slice keeps a test for overlap, and is slower by it.
pub fn word(bytes: &[u8], i: usize) -> u64
    requires { 8 * i + 8 ≤ length bytes.now }
    ensures { result ≡ word_at bytes.now i }
{
    let at = 8 * i;
    u64::from_le_bytes([
        bytes[at],
        bytes[at + 1],
        bytes[at + 2],
        bytes[at + 3],
        bytes[at + 4],
        bytes[at + 5],
        bytes[at + 6],
        bytes[at + 7],
    ])
}

// Writes the i-th number; all other bytes are kept. By its bytes too.
pub fn put_word(bytes: &mut [u8], i: usize, v: u64)
    requires { 8 * i + 8 ≤ length bytes.old }
    ensures { bytes.new ≡ with_word bytes.old i v }
{
    let at = 8 * i;
    let eight = v.to_le_bytes();
    bytes[at] = eight[0];
    bytes[at + 1] = eight[1];
    bytes[at + 2] = eight[2];
    bytes[at + 3] = eight[3];
    bytes[at + 4] = eight[4];
    bytes[at + 5] = eight[5];
    bytes[at + 6] = eight[6];
    bytes[at + 7] = eight[7];
}

// Writes the numbers of a list at the front; the bytes past them are kept.
#[tactic(auto, using(crate::proofs::Encoded::encoded_none, crate::proofs::Encoded::encoded_more))]
pub fn write_words(numbers: &[u64], bytes: &mut [u8])
    requires { 8 * length numbers.now ≤ length bytes.old }
    ensures { bytes.new ≡ front (encode numbers.now) bytes.old }
{
    for (i, number) in numbers.iter().enumerate() {
        put_word(bytes, i, *number);
    }
}
