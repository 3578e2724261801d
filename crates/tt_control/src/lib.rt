//! What the words of the commands that control evaluation mean (break(n), catch(n), continue(n), dict(n) if it loops,
//! error(n), expr(n), for(n), foreach(n), if(n), return(n), switch(n), while(n)): a table of names, usages and
//! meanings. Nothing is evaluated.
#![tactic(auto)]

mod branches;
mod choices;
mod command;
mod control;
mod dictionaries;
mod endings;
mod evaluating;
mod options;
mod reading;
mod refusals;
mod turns;

pub use control::Control;
pub use reading::read_control;
