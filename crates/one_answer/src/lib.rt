#![tactic(auto)]

// What it means that a contract leaves no second answer, in specs/. There is no code here.
