#![tactic(auto)]

// vectors: no code; its specs compute cases that an interpreter written apart has answered.
