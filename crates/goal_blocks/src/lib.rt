//! What a schedule does to the slots of its ranks, and when that is right in every order of events.
#![tactic(auto)]

mod cert_fault;
mod contribution;
mod gen_fault;
mod generated;
mod laws;
mod making;
mod merging;
mod positions;
mod segment;
mod slot_table;
mod slots;
mod steps;
mod store;
mod wanted;

pub use cert_fault::CertFault;
pub use contribution::Contribution;
pub use gen_fault::GenFault;
pub use generated::laws_of_made_schedules;
pub use goal_limits::Collective;
pub use laws::{
    laws_of_certified_schedules, laws_of_faults, laws_of_held_contributions, laws_of_joined_starts,
    laws_of_matched_schedules, laws_of_placed_schedules, laws_of_positions, laws_of_races,
    laws_of_renamed_slots, laws_of_segments,
};
pub use making::{build_accepted, possible, schedule_by};
pub use positions::{ahead, back, digits, power};
pub use segment::Segment;
pub use slot_table::SlotTable;
pub use slots::{Adding, SlotIter, SlotRange, Slots, slot_count};
pub use steps::{Effect, Formula, Needs, Step, before_round, plans_of};
pub use store::{Payload, Store};
pub use wanted::{asked, first_of, initial_size, is_wanted};
