// No code: what a C or Rust caller of the sixteen exports can count on, over any numbers and bytes that it passes, and the theorems about it.

#![tactic(auto)]
