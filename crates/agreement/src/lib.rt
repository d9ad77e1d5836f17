#![tactic(auto)]

// agreement: theorems only, over the definitions of book, heap and engine.
