// Theorems over the definitions alone: which records the replay accepts.
#![tactic(auto)]
