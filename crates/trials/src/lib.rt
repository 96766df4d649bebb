// Document 01's proved cases, examples that meet the premises of the demands, and boards that break them. There is nothing to run.

#![tactic(auto)]
