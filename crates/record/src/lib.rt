// The reach record (document 01, 'Reach record'): the definitions of specs/Record.antt. The code is in `reach`.
#![tactic(auto)]
