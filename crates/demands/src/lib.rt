// The customer's demands, stated in specs/ over the definitions that the public contracts cite. There is nothing to run.

#![tactic(auto)]
