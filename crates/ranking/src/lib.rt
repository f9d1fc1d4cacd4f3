// Crews as lines, ranked in crew order and by seats; the trait of crew-made kinds; and a worked table.
#![tactic(auto)]

pub mod crew_line;
pub mod crew_made;
pub mod ranked;
pub mod seat_line;
pub mod worked;
