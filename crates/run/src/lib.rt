// The run of a schedule, demand 3, the crashes so far and the silent sets: definitions and statements are in specs/, proofs in proofs/.
#![tactic(auto)]
