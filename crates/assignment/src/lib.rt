// Assignment: the target takes the value of the right side.
#![tactic(auto)]

mod assign;
