//! What holds of the tables of requests: what is answered fits the request, and who asks is told why it is refused.
//! Nothing runs here.
#![tactic(auto)]

pub mod laws;
