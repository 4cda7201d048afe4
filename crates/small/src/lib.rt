// Big fonts on the small server (document 02, Wish 10): how many work words the small call asks for, and that it answers as the large one does. Definitions and laws in specs, no code.
#![tactic(auto)]
