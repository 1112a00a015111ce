// Theorems alone: one trace, one page, of bytes and of what the check answers. See specs/OneTrace.antt.
#![tactic(auto)]
