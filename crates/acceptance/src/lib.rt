#![tactic(auto)]
// The three demands, as theorems about the calls of `store`: there is no code here. Read specs/ first.
