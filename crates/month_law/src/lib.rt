// The month law over any calendar. No code: its definitions stand in specs/ and its laws in proofs/.
#![tactic(auto)]
