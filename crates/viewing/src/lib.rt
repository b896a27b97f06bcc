// What looking into a chip gives, by theorems about its definitions: there is no code here.

#![tactic(auto)]
