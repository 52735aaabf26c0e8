//! Mathematics that the libraries here cite: definitions in specs/, laws in proofs/. No code.
#![tactic(auto)]
