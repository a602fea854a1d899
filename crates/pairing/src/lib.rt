// Pairings, their sums, and the prices that show a pairing to be the least: the definitions stand in specs/, the theorems in proofs/.
#![tactic(auto)]

// A pair line: the number of a long, the number of a short, and an amount of both.
#[derive(Clone, Copy)]
pub struct Line {
    pub long: u64,
    pub short: u64,
    pub amount: u64,
}
