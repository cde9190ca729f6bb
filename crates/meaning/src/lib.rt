// What a job means stands in specs/, and the theorem over it in proofs/: this crate has no code.
#![tactic(auto)]
