// Texts that are named in a table, by their places there.
#![tactic(auto)]

ghost use Rattle.std.specs.Prelude.{◌≡◌, ◌*◌, ◌≤◌, length};
ghost use Rattle.codes.specs.Codes.{place_of, cells};

// The first place of the text among the `count` texts of `width` bytes that stand in the table.
// The table is one text with its width and count beside it: the reader may not get slower, and its most frequent search is a quarter slower in an array of names.
pub fn place_in(text: &[u8], table: &[u8], width: usize, count: usize) -> Option<usize>
    requires { count * width ≤ length table.now }
    ensures { result ≡ place_of text.now (cells width count table.now) }
{
    (0..count).find(|&n| text == &table[n * width..(n + 1) * width])
}
