// Window numbers as they were before millionths, and what that change keeps: definitions in specs/, the proof of the claim in proofs/.
#![tactic(auto)]
