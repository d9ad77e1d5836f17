#![tactic(auto)]

// terms: theorems only: the pre-term stack and the free-variable registers stay small while the code of an accepted book runs.
