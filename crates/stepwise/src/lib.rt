// No code: what a start and one step give, ask for and leave, in the words of the rules, and what any host at all can count on.

#![tactic(auto)]
