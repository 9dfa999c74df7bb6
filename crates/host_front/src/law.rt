//! Laws of the words that the contracts of this crate speak.
ghost use Rattle.host_front.specs.Isolation.{TwoWorlds};
ghost use Rattle.host_front.specs.Living.{EventsAlone, TwoLivedWorlds};

/// Two hosts, of which one may have no other tenant, give a tenant the same bytes: if it holds one state in
/// both, and asks both for the same of its own.
pub fn two_worlds()
    ensures { TwoWorlds }
{}

/// Lines that are all events are answered as events are.
pub fn events_alone()
    ensures { EventsAlone }
{}

/// Two hosts give a tenant the same bytes while tenants come and go: if it begins in one state in both, by
/// being there or by being added, asks both for the same of its own and takes the same quotas.
pub fn two_lived_worlds()
    ensures { TwoLivedWorlds }
{}
