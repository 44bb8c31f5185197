// No code: theorems about the definitions that the promises of run and settled run are equations with.
#![tactic(auto)]
