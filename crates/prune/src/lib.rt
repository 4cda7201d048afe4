// Renumbering the calls of charstrings and subroutines (write.rs): the definitions of specs/Renumber.antt. The code is in `renumber` and `renumbered`.
#![tactic(auto)]
