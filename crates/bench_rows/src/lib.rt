#![tactic(auto)]
// The bench sheet's rows marked P, proved of the rules. There is no code here.
