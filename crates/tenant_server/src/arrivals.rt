//! How connections come in, until the server ends.
use crate::connections::{Acceptor, accept_all};
use crate::fault::ServeFault;
use connection_table::{ConnectionTable, Stopping};
use std::net::TcpListener;
use std::sync::{Arc, Wait};
use std::time::{Clock, Duration};
use std::{io, thread};
use tenant_calls::TenantKey;
use tenant_scheduler::Tenants;

/// The part of the directory of tenants that is read where the server ends.
const SHARD: usize = 0;

/// How many milliseconds lie between two looks whether all connections have ended.
const PAUSE: u64 = 50;

/// How often it is looked: for ten seconds.
const LOOKS: u32 = 200;

/// What brings connections in.
#[derive(Drop)]
pub(crate) struct Arrivals<R: Wait + Drop, K: TenantKey> {
    pub(crate) acceptor: Acceptor,
    pub(crate) listener: Arc<TcpListener>,
    pub(crate) stopping: Arc<Stopping>,
    pub(crate) table: ConnectionTable<R>,
    /// After how many connections the server ends.
    pub(crate) connections: Option<u32>,
    pub(crate) tenants: Arc<Tenants<R, K>>,
}

impl<R: Wait + Clock + Copy + Drop, K: TenantKey> Arrivals<R, K> {
    /// Accepts connections until the server ends, and says how many. Where it was told to end, watches and connections end
    /// too.
    pub(crate) fn accept(self, rt: R) -> Result<u32, ServeFault> {
        let Arrivals {
            acceptor,
            listener,
            stopping,
            mut table,
            connections,
            tenants,
        } = self;
        let accepted = accept_all(&rt, &listener, &stopping, acceptor, &mut table, connections);
        wait_for_the_last(&rt, &table, &stopping);
        if stopping.is_told() && !end_idle(&rt, &table, &tenants) {
            // A connection whose watch is open reads nothing, and learns that it has ended by what the watch is told.
            table.end_all();
            end_idle(&rt, &table, &tenants);
        }
        accepted
    }
}

/// Waits until no connection is open any more, or until the server is told to end: also where as many have come as were told.
fn wait_for_the_last<R: Wait + Clock + Drop>(
    rt: &R,
    table: &ConnectionTable<R>,
    stopping: &Stopping,
) {
    for _ in rt.forever() {
        if table.open() == 0 || stopping.is_told() {
            return;
        }
        thread::sleep(rt, Duration::from_millis(PAUSE));
    }
}

/// Ends watches, and connections that are idle or come to be, for ten seconds at the most. Whether none is left. A request that
/// waited behind a watch may open another one, so all are looked for each time.
fn end_idle<R, K>(rt: &R, table: &ConnectionTable<R>, tenants: &Tenants<R, K>) -> bool
where
    R: Wait + Clock + Drop,
    K: TenantKey,
{
    for _ in 0..LOOKS {
        tenants.end_watches(rt, SHARD);
        if table.end_idle() == 0 {
            return true;
        }
        thread::sleep(rt, Duration::from_millis(PAUSE));
    }
    false
}
