// The sheet that the program `cut` reads (document 01, 'One sheet, whole'): taken piece by piece, read line by line; and what it prints.
#![tactic(auto)]

pub mod buffers;
pub mod printing;
pub mod reading;
pub mod taking;
