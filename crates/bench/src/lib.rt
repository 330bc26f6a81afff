// No code: the bench examples P1–P9 are a table in specs/, computed from the definitions in proofs/.
#![tactic(auto)]
