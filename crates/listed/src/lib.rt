// What the program reads and shows, pinned down by theorems about the definitions: there is no code here.

#![tactic(auto)]
