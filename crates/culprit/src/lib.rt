// Which glyph costs the small file (document 02, Wish 12): the answer, and in specs/ what it stands for. No code.
#![tactic(auto)]
