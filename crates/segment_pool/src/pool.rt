//! The pool, and the tickets that reserve its segments.
ghost use Rattle.std.specs.Prelude.{◌≡◌, ◌+◌, ◌-◌, ◌^◌, ◌<◌, ◌≤◌, ◌∷◌, min, length, None, Some, replicate};
ghost use Rattle.std.specs.Prelude.{slice_set, IfOk, OnOk, OnErr};
ghost use Rattle.std.specs.List.Sorted.{IsPermutation};
ghost use Rattle.etcd_model.specs.Pool.{IsLeastUnheld, IsHeld, AddsUp, all_below};

use crate::supply::new_segments;
use cell_arena::Segment;
use etcd_types::Mem;
use etcd_types::limits::MAX_SEGMENTS;
use std::alloc::Global;
use std::marker::Model;

/// What one tenant may draw, under a number that no other ticket of its pool has.
#[derive(Drop)]
pub struct Ticket {
    number: u32,
    reserved: u32,
    drawn: u32,
}

impl Model for Ticket {
    ghost use Rattle.std.specs.Prelude.{◌≤◌};
    ghost use Rattle.etcd_model.specs.Pool.{TicketState};

    ghost Value = { TicketState };

    ghost view = { λ t. record { number = t.number; reserved = t.reserved; drawn = t.drawn } };

    ghost invariant = { λ t. t.drawn ≤ t.reserved };
}

impl Ticket {
    /// A ticket that reserves nothing, under a number of no pool: it stands at a desk that serves
    /// nobody.
    pub fn idle() -> Ticket
        ensures { result ≡ record { number = MAX_SEGMENTS; reserved = 0; drawn = 0 } }
    {
        Ticket {
            number: MAX_SEGMENTS,
            reserved: 0,
            drawn: 0,
        }
    }

    /// Its number.
    pub fn number(&self) -> u32
        ensures { result ≡ self.now.number }
    {
        self.number
    }

    /// How many segments it reserves.
    pub fn reserved(&self) -> u32
        ensures { result ≡ self.now.reserved }
    {
        self.reserved
    }

    /// How many of these are drawn.
    pub fn drawn(&self) -> u32
        ensures drawn { result ≡ self.now.drawn }
        ensures within { result ≤ self.now.reserved }
    {
        self.drawn
    }
}

/// Fewer segments are unreserved.
#[derive(Clone, Copy, Debug, PartialEq, Eq)]
pub struct Short;

/// All segments of a host: those that are free, and what the tickets reserve and have drawn.
#[derive(Drop)]
pub struct Pool {
    free: Vec<Segment>,
    promised: u32,
    out: u32,
    /// Of each number the reservation of the ticket that holds it, 0 where none does. As each ticket
    /// reserves a segment at least, a number is left wherever a segment is.
    reservations: Vec<u32>,
    /// Of each segment the number of the ticket that drew it.
    owners: Vec<Option<u32>>,
}

impl Model for Pool {
    ghost use Rattle.etcd_model.specs.Pool.{PoolState};

    ghost Value = { PoolState };

    ghost use Rattle.std.specs.Prelude.{vec_len};
    ghost use Rattle.cell_arena.specs.Segments.{numbers_of};
    ghost use Rattle.segment_pool.specs.Sound.{IsPool};

    ghost view = { λ p. record {
      free = vec_len p.free;
      numbers = numbers_of p.free.items;
      promised = p.promised;
      out = p.out;
      reservations = p.reservations.items;
      owners = p.owners.items;
    } };

    ghost invariant = { IsPool };
}

impl Pool {
    /// A pool of so many new segments, with no ticket.
    pub fn new(alloc: Global, segments: u32) -> Mem<Pool>
        requires some { 1 ≤ segments }
        requires most { segments ≤ MAX_SEGMENTS }
        ensures { IfOk result
            (λ pool. pool
            ≡ record {
              free = segments;
              numbers = all_below segments;
              promised = 0;
              out = 0;
              reservations = replicate segments 0;
              owners = replicate segments None;
            }) }
    {
        Ok(Pool {
            free: new_segments(alloc, 0, segments)?,
            promised: 0,
            out: 0,
            reservations: vec![in alloc; 0; segments as usize]?,
            owners: vec![in alloc; None; segments as usize]?,
        })
    }

    /// Reserves segments under the least number that no ticket has, or says that fewer are
    /// unreserved.
    pub fn reserve(&mut self, segments: u32) -> Result<Ticket, Short>
        requires { 1 ≤ segments }

        ensures number { IfOk result (λ ticket. IsLeastUnheld self.old.reservations ticket.number) }
        ensures ticket { IfOk result (λ ticket. ticket ≡ record ticket { reserved = segments; drawn = 0 }) }
        ensures pool { IfOk result (λ ticket. self.new ≡ record self.old {
          promised = self.old.promised + segments;
          reservations = slice_set self.old.reservations ticket.number segments;
        }) }
        ensures enough { OnOk result (self.old.promised + segments ≤ self.old.free) }
        ensures short { OnErr result (self.old.free < self.old.promised + segments) }
        ensures err { OnErr result (self.new ≡ self.old) }

        // While only its own tickets are ended here, the number is really one of the pool's.
        ensures held { IfOk result (λ ticket. AddsUp self.old → IsHeld self.new ticket) }
        ensures adds_up { OnOk result (AddsUp self.old → AddsUp self.new) }
    {
        if self.unreserved() < segments {
            return Err(Short);
        }
        let number = least_unheld(self.reservations.as_slice());
        set_at(self.reservations.as_mut_slice(), number, segments);
        self.promised += segments;
        Ok(Ticket {
            number,
            reserved: segments,
            drawn: 0,
        })
    }

    /// Takes one reserved segment, as it is.
    pub fn draw(&mut self, ticket: &mut Ticket) -> Segment
        requires reserved { ticket.old.drawn < ticket.old.reserved }
        requires promised { 1 ≤ self.old.promised }
        ensures ticket { ticket.new ≡ record ticket.old { drawn = ticket.old.drawn + 1 } }
        ensures free { self.new.free + 1 ≡ self.old.free }
        ensures numbers { IsPermutation self.old.numbers (result.number ∷ self.new.numbers) }
        ensures promised { self.new.promised + 1 ≡ self.old.promised }
        ensures out { self.new.out ≡ self.old.out + 1 }
        ensures reservations { self.new.reservations ≡ self.old.reservations }
        ensures owners { self.new.owners ≡ slice_set self.old.owners result.number (Some ticket.old.number) }
    {
        ticket.drawn += 1;
        self.promised -= 1;
        self.out += 1;
        match self.free.pop() {
            Some(segment) => {
                let owner = Some(ticket.number);
                set_at(self.owners.as_mut_slice(), segment.number, owner);
                segment
            }
            None => unreachable!(),
        }
    }

    /// Takes a drawn segment back, as it is.
    pub fn give_back(&mut self, ticket: &mut Ticket, segment: Segment)
        requires drawn { 1 ≤ ticket.old.drawn }
        requires out { 1 ≤ self.old.out }
        ensures ticket { ticket.old ≡ record ticket.new { drawn = ticket.new.drawn + 1 } }
        ensures reserved { ticket.new.drawn < ticket.new.reserved }
        ensures free { self.new.free ≡ self.old.free + 1 }
        ensures numbers { IsPermutation (segment.number ∷ self.old.numbers) self.new.numbers }
        ensures promised { self.new.promised ≡ self.old.promised + 1 }
        ensures out { self.new.out + 1 ≡ self.old.out }
        ensures reservations { self.new.reservations ≡ self.old.reservations }
        ensures owners { self.new.owners ≡ slice_set self.old.owners segment.number None }
    {
        ticket.drawn -= 1;
        self.promised += 1;
        self.out -= 1;
        set_at(self.owners.as_mut_slice(), segment.number, None);
        self.free.push_reserved(segment);
    }

    /// Reserves so many more, or says that fewer are unreserved. A reservation stays at 2^32 - 1,
    /// which no ticket of this pool comes near.
    pub fn grow(&mut self, ticket: &mut Ticket, segments: u32) -> Result<(), Short>
        ensures ticket { OnOk result (ticket.new
            ≡ record ticket.old { reserved = min (ticket.old.reserved + segments) (2 ^ 32 - 1) }) }
        ensures pool { OnOk result (self.new ≡ record self.old {
          promised = self.old.promised + segments;
          reservations = slice_set self.old.reservations ticket.old.number ticket.new.reserved;
        }) }
        ensures enough { OnOk result (self.old.promised + segments ≤ self.old.free) }
        ensures short { OnErr result (self.old.free < self.old.promised + segments) }
        ensures err { OnErr result ((self.new ≡ self.old) × (ticket.new ≡ ticket.old)) }

        ensures exact { OnOk result (AddsUp self.old → IsHeld self.old ticket.old
            → ticket.new.reserved ≡ ticket.old.reserved + segments) }
        ensures held { OnOk result (IsHeld self.old ticket.old → IsHeld self.new ticket.new) }
        ensures adds_up { OnOk result (AddsUp self.old → IsHeld self.old ticket.old → AddsUp self.new) }
    {
        if self.unreserved() < segments {
            return Err(Short);
        }
        ticket.reserved = ticket.reserved.saturating_add(segments);
        set_at(
            self.reservations.as_mut_slice(),
            ticket.number,
            ticket.reserved,
        );
        self.promised += segments;
        Ok(())
    }

    /// Lets so many reserved segments go that are not drawn. One stays reserved.
    pub fn shrink(&mut self, ticket: &mut Ticket, segments: u32)
        requires drawn { ticket.old.drawn + segments ≤ ticket.old.reserved }
        requires some { 1 + segments ≤ ticket.old.reserved }
        requires promised { segments ≤ self.old.promised }

        ensures ticket { ticket.old ≡ record ticket.new { reserved = ticket.new.reserved + segments } }
        ensures promised { self.new.promised + segments ≡ self.old.promised }
        ensures reservations { self.new.reservations
            ≡ slice_set self.old.reservations ticket.old.number ticket.new.reserved }
        ensures others { self.new
            ≡ record self.old { promised = self.new.promised; reservations = self.new.reservations } }

        ensures held { IsHeld self.old ticket.old → IsHeld self.new ticket.new }
        ensures adds_up { AddsUp self.old → IsHeld self.old ticket.old → AddsUp self.new }
    {
        ticket.reserved -= segments;
        set_at(
            self.reservations.as_mut_slice(),
            ticket.number,
            ticket.reserved,
        );
        self.promised -= segments;
    }

    /// Ends a ticket that has nothing drawn.
    pub fn end(&mut self, ticket: Ticket)
        requires drawn { ticket.drawn ≡ 0 }
        requires promised { ticket.reserved ≤ self.old.promised }

        ensures promised { self.new.promised + ticket.reserved ≡ self.old.promised }
        ensures reservations { self.new.reservations ≡ slice_set self.old.reservations ticket.number 0 }
        ensures others { self.new
            ≡ record self.old { promised = self.new.promised; reservations = self.new.reservations } }

        ensures adds_up { AddsUp self.old → IsHeld self.old ticket → AddsUp self.new }
    {
        set_at(self.reservations.as_mut_slice(), ticket.number, 0);
        self.promised -= ticket.reserved;
    }

    /// Of each segment the number of the ticket that drew it, and none where it is free.
    pub fn layout(&self, alloc: Global) -> Mem<Vec<Option<u32>>>
        ensures { IfOk result (λ layout. layout.items ≡ self.now.owners) }
    {
        Vec::from_slice(alloc, self.owners.as_slice())
    }

    /// How many segments no ticket reserves.
    pub fn unreserved(&self) -> u32
        ensures { self.now.promised + result ≡ self.now.free }
    {
        self.free.len() as u32 - self.promised
    }
}

/// The least number that no ticket has. Where all have one, which tickets of another pool alone can
/// bring about, it is the number past them.
fn least_unheld(reservations: &[u32]) -> u32
    requires { length reservations.now ≤ MAX_SEGMENTS }
    ensures { IsLeastUnheld reservations.now result }
{
    reservations
        .iter()
        .position(|reserved| *reserved == 0)
        .unwrap_or(reservations.len()) as u32
}

/// Writes an item, where the list has that place.
fn set_at<T: Drop>(items: &mut [T], place: u32, item: T)
    ensures { items.new ≡ slice_set items.old place item }
{
    let place = place as usize;
    if place < items.len() {
        items[place] = item;
    }
}
