// The worked cases of documents 01 and 02 in one table, with one theorem: see proofs/. No function.
#![tactic(auto)]
