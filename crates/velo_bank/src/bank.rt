//! The bank: its accounts are variables of a run, and who works there has a seat.

use std::alloc::Global;
use std::sync::Wait;
use std::thread;
use std::thread::Threads;
use velo_events::{Bounds, Config, Label, LockId, Refusal, ThreadId, VarId};
use velo_runtime::{RunError, Seat, Shared, close};
use velo_world::Closed;

const SAVINGS: VarId = VarId(0);

const CURRENT: VarId = VarId(1);

/// The lock of both accounts.
const VAULT: LockId = LockId(0);

const ALICE: ThreadId = ThreadId(1);

const BOB: ThreadId = ThreadId(2);

/// The label of the block of a transfer.
const TRANSFER: Label = Label(0);

/// The label of the block of a deposit.
const DEPOSIT: Label = Label(1);

/// Two accounts, and the seats of the three threads that work at them.
#[derive(Drop)]
pub struct Bank {
    accounts: Shared,
    main: Seat,
    alice: Seat,
    bob: Seat,
}

impl Bank {
    /// Opens a bank with 1,000 in each account.
    ///
    /// # Errors
    /// What `Shared::open` or a seat refused.
    pub fn open<R: Wait>(rt: &R, alloc: Global) -> Result<Bank, RunError> {
        let bounds = Bounds {
            threads: 3,
            variables: 2,
            locks: 1,
        };
        let (accounts, mut main) = Shared::open(alloc, Config::new(1, bounds, 1_000, 64, false)?)?;
        match fill_and_fork(rt, &accounts, &mut main) {
            Ok((alice, bob)) => Ok(Bank {
                accounts,
                main,
                alice,
                bob,
            }),
            Err(refusal) => {
                drop((accounts, main));
                Err(RunError::from(refusal))
            }
        }
    }

    /// Alice and Bob move money at once, in whatever order their threads come.
    ///
    /// # Errors
    /// The first refusal of Alice's seat, or else of Bob's.
    pub fn transfer_at_once<R: Threads + Wait + Sync>(&mut self, rt: &R) -> Result<(), Refusal> {
        let Bank {
            accounts,
            alice,
            bob,
            ..
        } = self;
        let accounts = &*accounts;
        let (moved, moved_back) = thread::join(
            rt,
            || transfer_ten_times(rt, accounts, alice, SAVINGS, CURRENT, 10),
            || transfer_ten_times(rt, accounts, bob, CURRENT, SAVINGS, 1),
        );
        moved?;
        moved_back
    }

    /// Bob's thread deposits between Alice's read and her write, so that his deposit is lost.
    ///
    /// # Errors
    /// The first refusal of a seat.
    pub fn lose_a_deposit<R: Threads + Wait + Sync>(&mut self, rt: &R) -> Result<(), Refusal> {
        let Bank {
            accounts,
            alice,
            bob,
            ..
        } = self;
        let accounts = &*accounts;
        alice.begin(rt, accounts, DEPOSIT)?;
        let savings = alice.read(rt, accounts, SAVINGS)?;
        let (deposited, ()) = thread::join(rt, || deposit(rt, accounts, bob, 5), || ());
        deposited?;
        alice.write(rt, accounts, SAVINGS, savings.saturating_add(10))?;
        alice.end(rt, accounts)?;
        Ok(())
    }

    /// Waits for Alice and Bob to go home, and reads both accounts.
    ///
    /// # Errors
    /// The first refusal of a seat.
    pub fn balances<R: Wait>(&mut self, rt: &R) -> Result<(u64, u64), Refusal> {
        let Bank {
            accounts,
            main,
            alice,
            bob,
        } = self;
        alice.exit(rt, accounts)?;
        bob.exit(rt, accounts)?;
        wait_and_read(rt, accounts, main)
    }

    /// Ends the run, for its report.
    ///
    /// # Errors
    /// `Memory` where the list of the seats was refused, and `Missing` where one of them does not
    /// fit.
    pub fn close(self, alloc: Global) -> Result<Closed, RunError> {
        let Bank {
            accounts,
            main,
            alice,
            bob,
        } = self;
        let seats = vec![in alloc; main, alice, bob]?;
        Ok(close(accounts, seats)?)
    }
}

/// Puts 1,000 into each account, and makes the seats of Alice and Bob.
fn fill_and_fork<R: Wait>(
    rt: &R,
    accounts: &Shared,
    main: &mut Seat,
) -> Result<(Seat, Seat), Refusal> {
    main.write(rt, accounts, SAVINGS, 1_000)?;
    main.write(rt, accounts, CURRENT, 1_000)?;
    let alice = main.fork(rt, accounts, ALICE)?;
    let bob = main.fork(rt, accounts, BOB)?;
    Ok((alice, bob))
}

/// Waits for Alice and Bob, and reads both accounts.
fn wait_and_read<R: Wait>(
    rt: &R,
    accounts: &Shared,
    main: &mut Seat,
) -> Result<(u64, u64), Refusal> {
    main.join(rt, accounts, ALICE)?;
    main.join(rt, accounts, BOB)?;
    let savings = main.read(rt, accounts, SAVINGS)?;
    Ok((savings, main.read(rt, accounts, CURRENT)?))
}

/// Moves an amount from one account to another, in a block and under the lock.
fn transfer<R: Wait>(
    rt: &R,
    accounts: &Shared,
    teller: &mut Seat,
    from: VarId,
    to: VarId,
    amount: u64,
) -> Result<(), Refusal> {
    teller.begin(rt, accounts, TRANSFER)?;
    teller.acquire(rt, accounts, VAULT)?;
    let giver = teller.read(rt, accounts, from)?;
    let taker = teller.read(rt, accounts, to)?;
    if let (Some(less), Some(more)) = (giver.checked_sub(amount), taker.checked_add(amount)) {
        teller.write(rt, accounts, from, less)?;
        teller.write(rt, accounts, to, more)?;
    }
    teller.release(rt, accounts, VAULT)?;
    teller.end(rt, accounts)?;
    Ok(())
}

fn transfer_ten_times<R: Wait>(
    rt: &R,
    accounts: &Shared,
    teller: &mut Seat,
    from: VarId,
    to: VarId,
    amount: u64,
) -> Result<(), Refusal> {
    for _ in 0..10 {
        transfer(rt, accounts, teller, from, to, amount)?;
    }
    Ok(())
}

/// Adds an amount to the savings, in a block, with no lock.
fn deposit<R: Wait>(
    rt: &R,
    accounts: &Shared,
    teller: &mut Seat,
    amount: u64,
) -> Result<(), Refusal> {
    teller.begin(rt, accounts, DEPOSIT)?;
    let savings = teller.read(rt, accounts, SAVINGS)?;
    teller.write(rt, accounts, SAVINGS, savings.saturating_add(amount))?;
    teller.end(rt, accounts)?;
    Ok(())
}
