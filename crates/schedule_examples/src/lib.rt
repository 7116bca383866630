//! Worked schedules: what the rules answer, step by step. Each is a theorem, and nothing here runs. It stands on
//! `schedule_rules` for the rules, and on `schedule_text` for the texts of some of the schedules.
#![tactic(auto)]

pub mod calls;
pub mod downgrades;
pub mod dropped;
pub mod exits;
pub mod failures;
pub mod first;
pub mod guards;
pub mod legality;
pub mod lent;
pub mod nesting;
pub mod once;
pub mod owned;
pub mod parking;
pub mod plain;
pub mod primed;
pub mod refusals;
pub mod registration;
pub mod table;
pub mod texts;
pub mod turns;
pub mod waiting;
pub mod wrong;
pub mod wrong_exits;
pub mod wrong_kinds;
pub mod wrong_registration;
