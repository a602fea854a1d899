// What accepted trades leave of each description: the definitions stand in specs/, the theorems in proofs/.
#![tactic(auto)]
