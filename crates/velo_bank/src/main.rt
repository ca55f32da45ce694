//! A bank with threads of its own: once its transfers are blocks under a lock, and once a deposit
//! is lost.
#![tactic(auto)]

mod bank;

use crate::bank::Bank;
use std::alloc::{AllocError, Global};
use std::sync::Wait;
use std::thread::Threads;
use velo_bytes::WriterSink;
use velo_events::Refusal;
use velo_report::{Names, report};
use velo_runtime::RunError;
use velo_world::Closed;

/// Owned names, by number.
fn names(alloc: Global, words: &[&str]) -> Result<Vec<String>, AllocError> {
    let mut names = Vec::new(alloc);
    for word in words {
        names.push(word.to_string(alloc)?)?;
    }
    Ok(names)
}

/// A day at the bank: the balances at its end, and the run for its report.
fn day<R: Threads + Wait + Sync>(
    rt: &R,
    alloc: Global,
    is_locked: bool,
) -> Result<(u64, u64, Closed), RunError> {
    let mut bank = Bank::open(rt, alloc)?;
    match work(rt, &mut bank, is_locked) {
        Ok((savings, current)) => Ok((savings, current, bank.close(alloc)?)),
        Err(refusal) => {
            drop(bank);
            Err(RunError::from(refusal))
        }
    }
}

/// The work of a day, and the balances at its end.
fn work<R: Threads + Wait + Sync>(
    rt: &R,
    bank: &mut Bank,
    is_locked: bool,
) -> Result<(u64, u64), Refusal> {
    if is_locked {
        bank.transfer_at_once(rt)?;
    } else {
        bank.lose_a_deposit(rt)?;
    }
    bank.balances(rt)
}

/// Prints the balances, and the report of the run.
fn print(rt: &HostRuntime, savings: u64, current: u64, closed: &Closed) -> anyhow::Result<()> {
    println!(rt; "savings {savings} current {current}")?;
    let threads = names(rt.alloc(), &["main", "alice", "bob"])?;
    let labels = names(rt.alloc(), &["transfer", "deposit"])?;
    let names = Names::Words {
        threads: &threads,
        labels: &labels,
    };
    report(closed, &names, &mut WriterSink::new(rt.stdout()))?;
    Ok(())
}

/// Prints the outcome of a day.
fn show(rt: &HostRuntime, ended: (u64, u64, Closed)) -> anyhow::Result<()> {
    let (savings, current, closed) = ended;
    let printed = print(rt, savings, current, &closed);
    drop(closed);
    printed
}

fn main(rt: HostRuntime) -> anyhow::Result<()> {
    for is_locked in [true, false] {
        show(&rt, day(&rt, rt.alloc(), is_locked)?)?;
    }
    Ok(())
}
