//! The labels of a block, in the order of their first appearance, each with what is known of it.
//!
//! Most texts number their labels and define them in that order. A [`LabelMap`] finds the labels of such a run by
//! binary search. The run begins with the first label that comes before the next one, and ends before the next label
//! that is out of order. All others are found by their hashes, up to a fixed number of them, and then in an ordered
//! map: the author of a text may choose labels with equal hashes. So the steps of a call grow with the logarithm of the
//! number of labels, whatever they are. Most mentions skip the search: the label is near one that was mentioned before.
#![tactic(auto)]

mod label_map;
mod numbers;
mod sorted;

pub use label_map::{LabelInfo, LabelMap};
