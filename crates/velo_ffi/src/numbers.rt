//! Numbers as C hands them: wider than they may be, so that none is cut short on its way.
ghost use Rattle.std.specs.Prelude.{◌≡◌, false, IfSome, IfNone};
ghost use Rattle.velo_ffi.specs.Numbers.{AreBad, lock_of, thread_of, variable_of};

use velo_events::{Bounds, Config, LockId, ThreadId, VarId};

/// The thread of a number, if it is one of the type.
pub fn thread_of(number: u32) -> Option<ThreadId>
    ensures { result ≡ thread_of number }
{
    match u8::try_from(number) {
        Ok(number) => Some(ThreadId(number)),
        Err(_) => None,
    }
}

/// The variable of a number, if it is one of the type.
pub fn variable_of(number: u32) -> Option<VarId>
    ensures { result ≡ variable_of number }
{
    match u16::try_from(number) {
        Ok(number) => Some(VarId(number)),
        Err(_) => None,
    }
}

/// The lock of a number, if it is one of the type.
pub fn lock_of(number: u32) -> Option<LockId>
    ensures { result ≡ lock_of number }
{
    match u16::try_from(number) {
        Ok(number) => Some(LockId(number)),
        Err(_) => None,
    }
}

/// A configuration of these numbers, which goes on after an alarm, if each is in its range.
pub fn config_of(
    threads: u32,
    variables: u32,
    locks: u32,
    events: u32,
    nodes: u32,
) -> Option<Config>
    ensures bounds { IfSome result (λ c. c.bounds
        ≡ record { threads = threads; variables = variables; locks = locks }) }
    ensures events { IfSome result (λ c. c.events ≡ events) }
    ensures nodes { IfSome result (λ c. c.nodes ≡ nodes) }
    ensures goes_on { IfSome result (λ c. c.stop ≡ false) }
    ensures bad { IfNone result
        (AreBad (record { threads = threads; variables = variables; locks = locks }) events nodes) }
{
    let bounds = Bounds {
        threads: u8::try_from(threads).ok()?,
        variables: u16::try_from(variables).ok()?,
        locks: u16::try_from(locks).ok()?,
    };
    Config::new(0, bounds, events, u16::try_from(nodes).ok()?, false).ok()
}
