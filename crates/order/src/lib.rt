// No code: that two writes may come in either order is stated in specs/ and proved in proofs/.
#![tactic(auto)]
