// What the crate `rfc4180` reads from a text is a file of RFC 4180's grammar, and all of it: see proofs/. No function.
#![tactic(auto)]
