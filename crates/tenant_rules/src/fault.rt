//! Why an operator's call is refused.

/// Why an operator's call is refused: the first of these that applies.
#[derive(Clone, Copy, Debug, PartialEq, Eq)]
pub enum OperatorFault {
    /// A name has 1 to 64 bytes of `a-z0-9-`.
    Name,
    /// A cluster ID is not 0, a quota is from 4 to 1,048,576 cells, a first revision from 1 to 2^62,
    /// and there are at most 256 tenants.
    Limits,
    /// A tenant has this name.
    Taken,
    NoTenant,
    /// Fewer segments are unreserved than the quota takes, or takes more.
    Short,
    /// A growth was refused, or it is what no type rules out.
    Memory,
}
