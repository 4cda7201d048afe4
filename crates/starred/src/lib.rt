// Document 01's starred cases: the theorems of specs/Starred.antt. No code.
#![tactic(auto)]
