// Demand 3 over the call itself: the theorem of specs/. No code.
#![tactic(auto)]
