// A file that is read, in the words of the paper and of RFC 4180's grammar: definitions and theorems, no function.
#![tactic(auto)]
