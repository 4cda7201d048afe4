// Worked examples of whole calls, computed: definitions alone, in specs. They stand apart from crate subset because each must-fail edit there would compute them again.
#![tactic(auto)]
