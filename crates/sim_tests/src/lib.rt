//! Tests of the simulator, the certifier and the schedules of collectives, by their public calls. No other crate uses
//! this one.
#![tactic(auto)]

#[cfg(test)]
mod blocks;
#[cfg(test)]
mod certifier;
#[cfg(test)]
mod classes;
#[cfg(test)]
mod collectives;
#[cfg(test)]
mod crossed;
#[cfg(test)]
mod cycles;
#[cfg(test)]
mod events;
#[cfg(test)]
mod graph;
#[cfg(test)]
mod matching;
#[cfg(test)]
mod order;
#[cfg(test)]
mod plans;
#[cfg(test)]
mod queue;
#[cfg(test)]
mod rooted;
#[cfg(test)]
mod same;
#[cfg(test)]
mod stuck;
