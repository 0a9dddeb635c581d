// Good form makes what the learner has observed right: sheet, row 11 and row 12 from what is observed are those of the definitions. No code.
#![tactic(auto)]
