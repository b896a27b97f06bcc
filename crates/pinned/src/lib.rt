// What the store's calls answer, pinned down by theorems about their definitions: there is no code here.

#![tactic(auto)]
