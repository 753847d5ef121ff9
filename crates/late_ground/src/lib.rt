// No code: theorems of boards whose ground is retouched late.
#![tactic(auto)]
