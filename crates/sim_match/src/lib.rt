//! Matching: which receive takes which message.
#![tactic(auto)]

mod by_source;
mod capacities;
mod credit;
mod laws;
mod list_numbers;
mod list_order;
mod match_list;
mod match_lists;
mod match_table;
mod matcher;
mod pattern;
mod queues;
mod table;

pub use laws::laws_of_posts_and_arrivals;
pub use matcher::Matcher;
pub use pattern::Pattern;
