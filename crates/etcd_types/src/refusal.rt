//! Why a request is refused.
ghost use Rattle.std.specs.Prelude.{◌≡◌};
ghost use Rattle.etcd_types.specs.Refusals.{refusal_number, refusal_code, refusal_status, refusal_text};

/// Why a request is refused, in the order of the refusals' numbers.
#[derive(Clone, Copy, Debug, PartialEq, Eq)]
pub enum Refusal {
    NoKey = 1,
    ValueGiven,
    LeaseGiven,
    KeyNotFound,
    TooManyOps,
    DuplicateKey,
    Compacted,
    Future,
    NoSpace,
    LeaseNotFound,
    LeaseExists,
    TtlTooLarge,
    TooLarge,
    BadBody,
    NotOffered,
    NoTenant,
    NoPath,
    NotPost,
    TooManyWatches,
    UsedUp,
    /// A growth was refused, a bound of the server is reached, or no type rules it out. Nothing changed.
    Memory,
}

impl Refusal {
    /// The refusal's number, from 1 to 21.
    pub fn number(self) -> u8
        ensures { result ≡ refusal_number self }
    {
        self as u8
    }

    /// The code of gRPC that the body tells.
    pub fn code(self) -> u64
        ensures { result ≡ refusal_code self }
    {
        match self {
            Refusal::NoKey
            | Refusal::ValueGiven
            | Refusal::LeaseGiven
            | Refusal::KeyNotFound
            | Refusal::TooManyOps
            | Refusal::DuplicateKey
            | Refusal::TooLarge
            | Refusal::BadBody => 3,
            Refusal::LeaseNotFound | Refusal::NoTenant | Refusal::NoPath => 5,
            Refusal::NoSpace | Refusal::TooManyWatches | Refusal::UsedUp => 8,
            Refusal::LeaseExists => 9,
            Refusal::Compacted | Refusal::Future | Refusal::TtlTooLarge => 11,
            Refusal::NotOffered | Refusal::NotPost => 12,
            Refusal::Memory => 14,
        }
    }

    /// The status of HTTP.
    pub fn status(self) -> u16
        ensures { result ≡ refusal_status self }
    {
        match self {
            Refusal::LeaseNotFound | Refusal::NoTenant | Refusal::NoPath => 404,
            Refusal::NotPost => 405,
            Refusal::NoSpace | Refusal::TooManyWatches | Refusal::UsedUp => 429,
            Refusal::NotOffered => 501,
            Refusal::Memory => 503,
            _ => 400,
        }
    }

    /// The text that the body tells.
    pub fn text(self) -> &'static str
        ensures { result.now ≡ refusal_text self }
    {
        match self {
            Refusal::NoKey => "etcdserver: key is not provided",
            Refusal::ValueGiven => "etcdserver: value is provided",
            Refusal::LeaseGiven => "etcdserver: lease is provided",
            Refusal::KeyNotFound => "etcdserver: key not found",
            Refusal::TooManyOps => "etcdserver: too many operations in txn request",
            Refusal::DuplicateKey => "etcdserver: duplicate key given in txn request",
            Refusal::Compacted => "etcdserver: mvcc: required revision has been compacted",
            Refusal::Future => "etcdserver: mvcc: required revision is a future revision",
            Refusal::NoSpace => "etcdserver: mvcc: database space exceeded",
            Refusal::LeaseNotFound => "etcdserver: requested lease not found",
            Refusal::LeaseExists => "etcdserver: lease already exists",
            Refusal::TtlTooLarge => "etcdserver: too large lease TTL",
            Refusal::TooLarge => "etcdserver: request is too large",
            Refusal::BadBody => "etcd_host: the body can't be read",
            Refusal::NotOffered => "etcd_host: not offered",
            Refusal::NoTenant => "etcd_host: no such tenant",
            Refusal::NoPath => "etcd_host: no such path",
            Refusal::NotPost => "etcd_host: POST is wanted",
            Refusal::TooManyWatches => "etcd_host: too many watches",
            Refusal::UsedUp => "etcd_host: revisions are used up",
            Refusal::Memory => "etcd_host: out of memory",
        }
    }
}
