//! Tests of `velo_events`, `velo_traces`, `velo_logtext`, `velo_heap`, `velo_certify`,
//! `velo_explain`, `velo_ledger`, `velo_workload`, `velo_thinning` and `velo_predict`, through their public calls.
#![tactic(auto)]

#[cfg(test)]
mod certify;
#[cfg(test)]
mod events;
#[cfg(test)]
mod explain;
#[cfg(test)]
mod growths;
#[cfg(test)]
mod heap;
#[cfg(test)]
mod lanes;
#[cfg(test)]
mod ledger;
#[cfg(test)]
mod logtext;
#[cfg(test)]
mod predict;
#[cfg(test)]
mod repeats;
#[cfg(test)]
mod traces;
#[cfg(test)]
mod words;
#[cfg(test)]
mod workload;
