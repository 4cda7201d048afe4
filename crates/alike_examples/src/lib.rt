// Unused letters leave no trace, used: fonts that are alike and one that is not, computed. Definitions alone, in specs; apart from crate alike, whose edits would compute them each time.
#![tactic(auto)]
