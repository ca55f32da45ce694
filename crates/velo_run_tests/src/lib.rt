//! Tests of what runs: worlds, seats, workers and searches, and what the commands on them show, through public calls.
#![tactic(auto)]

#[cfg(test)]
mod alarms;
#[cfg(test)]
mod carry;
#[cfg(test)]
mod chances;
#[cfg(test)]
mod check;
#[cfg(test)]
mod commands;
#[cfg(test)]
mod ends;
#[cfg(test)]
mod growths;
#[cfg(test)]
mod renew;
#[cfg(test)]
mod runtime;
#[cfg(test)]
mod schedules;
#[cfg(test)]
mod shrinking;
#[cfg(test)]
mod turns;
#[cfg(test)]
mod usage;
#[cfg(test)]
mod watch;
#[cfg(test)]
mod words;
#[cfg(test)]
mod worker;
#[cfg(test)]
mod world;
