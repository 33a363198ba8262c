// Tests of plans and of scripts at their edges, apart from the crates so that those are not proved twice.
#![tactic(auto)]

#[cfg(test)]
mod check_edges;
#[cfg(test)]
mod fault_edges;
#[cfg(test)]
mod mark_edges;
#[cfg(test)]
mod post_edges;
#[cfg(test)]
mod script_lines;
#[cfg(test)]
mod script_plans;
#[cfg(test)]
mod script_rooms;
#[cfg(test)]
mod script_setups;
#[cfg(test)]
mod settle_edges;
#[cfg(test)]
mod setups;
#[cfg(test)]
mod spreading_edges;
#[cfg(test)]
mod undo_edges;
