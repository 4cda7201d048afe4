// Which reach records the checker accepts, and what a subset from an accepted one holds (document 02, Wish 6): the definitions and theorems of specs/. No code.
#![tactic(auto)]
