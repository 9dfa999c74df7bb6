//! What a comparison hands out: the audits, or why they are not the seats' lists.
ghost use Rattle.std.specs.Prelude.{◌≡◌, ◌<◌, IfErr, IfOk, vec_len};
ghost use Rattle.tenant_audit.specs.Closed.{AreClosed, AreLawful, IsFault, IsNamed, audits_of};
ghost use Rattle.tenant_audit.specs.Closed.{given_of, sheet_audits};

use crate::audit::Audit;
use crate::comparing::{Sheet, Verdict, judge};
use crate::seat::Seat;
use etcd_types::Mem;
use std::alloc::Global;

/// The audits of all tenants, in the order in which the tenants were added.
#[derive(Drop)]
pub struct Closed {
    pub audits: Vec<(Vec<u8>, Audit)>,
}

/// Why audits and seats' lists are not the same, in the order in which the reasons count. Each is told of the
/// first such tenant.
#[derive(Debug, Drop)]
pub enum CloseFault {
    /// Two seats have this number.
    Double(u8),
    /// The audit has another opening than was given.
    Opening {
        tenant: Vec<u8>,
    },
    /// The audit has so many entries, and the seats' lists so many calls, up to 2^64 - 1.
    Mismatch {
        tenant: Vec<u8>,
        audit: u32,
        seats: u64,
    },
    /// The audit is not full, and a seat has missed a call.
    Missed {
        tenant: Vec<u8>,
    },
    /// The entry at this turn is not the seat's, or the seat's turns do not rise.
    Differs {
        tenant: Vec<u8>,
        turn: u32,
    },
    /// Somebody has a key to the tenant, so its audit can't be had. A comparison never tells it.
    Lent {
        tenant: Vec<u8>,
    },
    /// All are the same, and the list of the audits can't be held.
    Memory,
}

/// Compares the audits with the seats' lists, and hands the audits out if they are the same.
pub fn settle(alloc: Global, sheets: Vec<Sheet>, seats: Vec<Seat>) -> Result<Closed, CloseFault>
    requires { AreLawful sheets.items }
    ensures ok { IfOk result
        (λ closed. AreClosed (given_of sheets.items) seats.items (audits_of closed.audits.items)) }
    ensures audits { IfOk result (λ closed. audits_of closed.audits.items ≡ sheet_audits sheets.items) }
    ensures fault { IfErr result (λ f. IsFault sheets.items seats.items f) }
{
    match judge(sheets.as_slice(), seats.as_slice()) {
        Verdict::Agree => match audits_in(alloc, sheets) {
            Ok(audits) => Ok(Closed { audits }),
            Err(_) => Err(CloseFault::Memory),
        },
        Verdict::Double(number) => Err(CloseFault::Double(number)),
        Verdict::Opening(place) => Err(CloseFault::Opening {
            tenant: name_at(sheets, place),
        }),
        Verdict::Mismatch {
            place,
            entries,
            calls,
        } => Err(CloseFault::Mismatch {
            tenant: name_at(sheets, place),
            audit: entries,
            seats: calls,
        }),
        Verdict::Missed(place) => Err(CloseFault::Missed {
            tenant: name_at(sheets, place),
        }),
        Verdict::Differs { place, turn } => Err(CloseFault::Differs {
            tenant: name_at(sheets, place),
            turn,
        }),
    }
}

fn audits_in(alloc: Global, sheets: Vec<Sheet>) -> Mem<Vec<(Vec<u8>, Audit)>>
    ensures { IfOk result (λ audits. audits_of audits.items ≡ sheet_audits sheets.items) }
{
    let mut audits = Vec::with_capacity(alloc, sheets.len())?;
    for sheet in sheets {
        let Sheet {
            name,
            opening: _,
            audit,
        } = sheet;
        audits.push((name, audit))?;
    }
    Ok(audits)
}

/// The name of the tenant at a place, which takes no memory.
fn name_at(mut sheets: Vec<Sheet>, place: usize) -> Vec<u8>
    requires { place < vec_len sheets }
    ensures { IsNamed sheets.items place result.items }
{
    let Sheet {
        name,
        opening: _,
        audit: _,
    } = sheets.swap_remove(place);
    name
}
