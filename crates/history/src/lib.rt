// A book after any calls from an empty one: the page stands in specs/History.antt, its proof in proofs/.
#![tactic(auto)]
