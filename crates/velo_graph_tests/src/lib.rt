//! Tests of `velo_rows`, `velo_arena`, `velo_graph`, `velo_collect`, `velo_merge`, `velo_tables` and `velo_blame`, through their
//! public calls.
#![tactic(auto)]

#[cfg(test)]
mod arena;
#[cfg(test)]
mod blame;
#[cfg(test)]
mod clocks;
#[cfg(test)]
mod collect;
#[cfg(test)]
mod graph;
#[cfg(test)]
mod merge;
#[cfg(test)]
mod nodes;
#[cfg(test)]
mod rows;
#[cfg(test)]
mod tables;
#[cfg(test)]
mod words;
