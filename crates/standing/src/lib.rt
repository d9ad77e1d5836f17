#![tactic(auto)]

// standing: definitions and theorems only: the machine on one store that all computations share, and how they stand in it.
