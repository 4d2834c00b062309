//! Queues of events: each slot has a key or none, and the least key can be read.
#![tactic(auto)]

mod heap_item;
mod home;
mod keyed;
mod queue;
mod ranked_queue;
mod row;
mod run_heap;
mod sift;
mod slot_heap;
mod top_heap;
mod vec_queue;

pub use heap_item::{AtZero, HeapItem, ItemTime, MAX_SLOTS};
pub use home::PlaceInGroup;
pub use keyed::Keyed;
pub use queue::EventQueue;
pub use ranked_queue::RankedQueue;
pub use row::row_28;
pub use run_heap::RunHeap;
pub use sift::{Entry, Noted, Notes, Unnoted, place_of, rise, settle};
pub use slot_heap::SlotHeap;
pub use top_heap::TopHeap;
pub use vec_queue::VecQueue;
