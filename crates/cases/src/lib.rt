// What the replay of stored cases needs of every kind (tools/oracle/README.md, 'Lines'): an answer's form, the fields of a line, the counts and the report.
#![tactic(auto)]

pub mod answer;
pub mod fields;
pub mod inputs;
pub mod lines;
pub mod report;
pub mod tally;
