// Tests at the edges of bounds, delays, words, lines, books, networks and the word tool, apart from the crates so that those are not proved twice.
#![tactic(auto)]

#[cfg(test)]
mod book_calls;
#[cfg(test)]
mod book_edges;
#[cfg(test)]
mod bounds_edges;
#[cfg(test)]
mod delay_edges;
#[cfg(test)]
mod kinds;
#[cfg(test)]
mod lines_edges;
#[cfg(test)]
mod network_edges;
#[cfg(test)]
mod tool_runs;
#[cfg(test)]
mod unordered_edges;
#[cfg(test)]
mod word_edges;
