//! Which names, cluster IDs, quotas and first revisions a tenant may have.
ghost use Rattle.std.specs.Prelude.{◌≡◌};
ghost use Rattle.std.specs.List.{list_all};
ghost use Rattle.tenant_rules.specs.Rules.{is_name, is_name_byte, is_quota, within_limits};

use etcd_types::limits::{LAST_REVISION, MAX_NAME, MAX_QUOTA, MIN_QUOTA};

/// Whether a tenant may have this name: 1 to 64 bytes of `a-z0-9-`.
pub fn is_name(name: &[u8]) -> bool
    ensures { result ≡ is_name name.now }
{
    !name.is_empty() && name.len() <= MAX_NAME && are_name_bytes(name)
}

fn are_name_bytes(name: &[u8]) -> bool
    ensures { result ≡ list_all is_name_byte name.now }
{
    name.iter().all(|byte| { byte.is_ascii_lowercase() || byte.is_ascii_digit() || *byte == b'-' })
}

/// Whether a tenant may have this cluster ID, this quota in cells and this first revision.
pub fn within_limits(cluster: u64, quota: u64, first: u64) -> bool
    ensures { result ≡ within_limits cluster quota first }
{
    cluster > 0 && is_quota(quota) && (first > 0 && first <= LAST_REVISION)
}

/// Whether a tenant may have this quota in cells: 4 to 1,048,576.
pub fn is_quota(quota: u64) -> bool
    ensures { result ≡ is_quota quota }
{
    MIN_QUOTA <= quota && quota <= MAX_QUOTA
}
