// Facts of the definitions alone: the cases of document 01, in specs/.
#![tactic(auto)]
