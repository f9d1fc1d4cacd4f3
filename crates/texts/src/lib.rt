// Card text: its lines and their forms, the size that the first line tells, and the later lines put on a marking session.
#![tactic(auto)]

pub mod card;
mod forms;
pub mod refusals;
mod split;
