// Demand 3, the months, as one statement. No code: the statement stands in specs/ and its proof in proofs/.
#![tactic(auto)]
