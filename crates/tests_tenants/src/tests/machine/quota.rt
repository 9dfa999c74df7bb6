//! A quota of four cells.
use quota_alarm::{Quota, cost_delete, cost_put};

/// In a quota of four cells a put of `foo` has its record and room for its delete where the value
/// has 45 bytes, and not where it has 46.
#[test]
fn a_put_of_45_bytes_fits_four_cells(rt: HostRuntime) {
    let mut quota = Quota::new(4);
    let reserved = cost_delete(b"foo");
    assert!(rt; quota.admit(cost_put(b"foo", &[b'x'; 45]) + reserved));
    assert!(rt; !quota.admit(cost_put(b"foo", &[b'x'; 46]) + reserved));
    assert!(rt; !quota.alarm());
    quota.raise();
    assert!(rt; quota.alarm() && quota.admit(4));
    quota.clear();
    assert_eq!(rt; quota, Quota::new(4));
}
