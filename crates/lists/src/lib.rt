// Lists and tests, in specs/ and proofs/: they know nothing of margin. One list is made here, and one written into another.
#![tactic(auto)]

ghost use Rattle.std.specs.Prelude.{◌≡◌, ◌≤◌, length, replicate};
ghost use Rattle.lists.specs.Tables.{front};

// 256 zeros.
pub fn zeros() -> [u64; 256]
    ensures { result ≡ replicate 256 0 }
{
    [0; 256]
}

// Writes bytes over the first of a list; the others are kept. Byte by byte: copy_from_slice would have an archive of these crates need memmove from outside.
pub fn copy(from: &[u8], to: &mut [u8])
    requires { length from.now ≤ length to.old }
    ensures { to.new ≡ front from.now to.old }
{
    for i in 0..from.len() {
        to[i] = from[i];
    }
}
