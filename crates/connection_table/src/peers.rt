//! What the system does about a peer that is gone or reads nothing.
use crate::allowance::Patience;
use libc::net as c;
use std::io;
use std::net::TcpListener;
use std::os::fd::AsRawFd;

/// The most seconds for which the system takes a peer's silence.
const LONGEST_SILENCE: u32 = 32_767;

/// Has the system give up peers of a listener's connections, which take its options over: those that take nothing of
/// what waits to be sent, and those that are silent and don't say that they are still there.
pub fn give_up(listener: &TcpListener, patience: Patience) -> io::Result<()> {
    let fd = listener.as_raw_fd();
    let millis = value(patience.answer.saturating_mul(1000));
    let seconds = value(patience.silence.min(LONGEST_SILENCE));
    let on = value(1);
    check(unsafe { c::setsockopt(fd, c::IPPROTO_TCP, c::TCP_USER_TIMEOUT, &millis, 4) })?;
    check(unsafe { c::setsockopt(fd, c::SOL_SOCKET, c::SO_KEEPALIVE, &on, 4) })?;
    check(unsafe { c::setsockopt(fd, c::IPPROTO_TCP, c::TCP_KEEPIDLE, &seconds, 4) })?;
    check(unsafe { c::setsockopt(fd, c::IPPROTO_TCP, c::TCP_KEEPINTVL, &seconds, 4) })
}

/// A number of four bytes, as an option has it.
fn value(number: u32) -> [u8; 16] {
    let mut value = [0u8; 16];
    value[..4].copy_from_slice(&number.to_ne_bytes());
    value
}

fn check(status: i32) -> io::Result<()> {
    if status < 0 {
        return Err(io::ErrorKind::Other.into());
    }
    Ok(())
}
