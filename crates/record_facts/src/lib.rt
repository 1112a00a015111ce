// What holds of every accepted record: theorems over the definitions, with no function.
#![tactic(auto)]
