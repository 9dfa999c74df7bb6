//! Serves the tenants of the configuration on standard input by HTTP/1.1.
//!
//! The status is 0 at the end, 1 where the audits are not the seats' lists, 2 where the configuration can't be
//! read, 3 where input, output or the socket failed, and 4 for want of memory; the reason stands on standard
//! error.
#![tactic(auto)]

mod fault;
mod host;

use fault::HostFault;
use host::host;
use std::process::ExitCode;

fn main(rt: HostRuntime) -> ExitCode {
    match host(rt) {
        Ok(()) => ExitCode::from(0),
        Err(fault) => {
            // Where that can't be said either, the status still tells.
            let _ = eprintln!(rt; "etcd_host: {fault}");
            ExitCode::from(fault.status())
        }
    }
}
