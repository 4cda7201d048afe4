// Unused letters leave no trace (document 02, Wish 8): what two fonts must have in common, and the theorem that a subset call then gives the same reply. Definitions and laws in specs, no code.
#![tactic(auto)]
