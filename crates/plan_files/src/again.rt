// Calls of the system that a signal may interrupt.
use std::io;
use std::io::ErrorKind;

/// Makes a call of the system again for as long as a signal interrupts it.
pub(crate) fn uninterrupted<T: Drop, F: Fn() -> io::Result<T>>(call: F) -> io::Result<T>
    requires { F.IsAlwaysCallable call }
{
    for _ in 0..u64::MAX {
        match call() {
            Err(error) if error.kind() == ErrorKind::Interrupted => {}
            answer => return answer,
        }
    }
    Err(io::Error::from(ErrorKind::TimedOut))
}
