//! Laws about the definitions of the language: whatever a thread does comes to one thing, from single commands up to
//! what it asks next; and the steps of a script are the commands that stand in it (Tcl(n), rules 1 and 2). Nothing
//! runs here.
#![tactic(auto)]

pub mod one_answer;
pub mod script_steps;
