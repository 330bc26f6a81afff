// No code: the account of demand 3 is in specs/, the proof that every run balances in proofs/.
#![tactic(auto)]
