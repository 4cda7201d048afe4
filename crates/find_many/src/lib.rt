// The glyphs of many names or CIDs, with one reading of the font, which is a file, an OpenType one or a bare font (document 02, Wish 9).
#![tactic(auto)]

pub mod cids;
pub mod names;
