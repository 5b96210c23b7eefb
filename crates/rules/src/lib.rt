#![tactic(auto)]
// The rules of the store, as definitions: there is no code here. Read specs/ first.
