//! What a call on a tenant was answered.
ghost use Rattle.std.specs.Prelude.{◌≡◌};
ghost use Rattle.tenant_audit.specs.Receipts.{Slip};

use etcd_types::Refusal;

/// What a call on a tenant was answered. Who keeps the tenants makes it of the call, and nobody else can: so what serves clients
/// has none but those of its calls.
pub trait CallReceipt: Drop {
    // what it tells, and the call's place in its tenant's audit
    ghost slip_of: { Self → Slip };

    /// The status of HTTP.
    fn status(&self) -> u16
        ensures { result ≡ (slip_of self.now).status };

    /// The answer's text.
    fn body(&self) -> &[u8]
        ensures { result.now ≡ (slip_of self.now).body };

    /// The answer's text, by value.
    fn into_body(self) -> Vec<u8>
        ensures { result.items ≡ (slip_of self).body };

    /// The slot of the watch that the call created.
    fn slot(&self) -> Option<u8>
        ensures { result ≡ (slip_of self.now).slot };

    /// The call was a take of a watch, which it found cancelled.
    fn canceled(&self) -> bool
        ensures { result ≡ (slip_of self.now).canceled };

    /// Why the call was refused, if it was.
    fn refusal(&self) -> Option<Refusal>
        ensures { result ≡ (slip_of self.now).refusal };
}
