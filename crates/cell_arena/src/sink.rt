//! Where the bytes of a record go.
ghost use Rattle.std.specs.Prelude.{◌≡◌, ◌++◌, ℕ, List, OnOk, OnErr};

use etcd_types::Mem;

/// Where the bytes of a record go, piece by piece.
pub trait Sink {
    /// All that it was given.
    ghost taken: { Self → List ℕ };

    /// Takes one more piece. Where it finds no memory, it stays as it was.
    fn put(&mut self, piece: &[u8]) -> Mem<()>
        ensures ok { OnOk result (taken self.new ≡ taken self.old ++ piece.now) }
        ensures err { OnErr result (taken self.new ≡ taken self.old) };
}

impl Sink for Vec<u8> {
    ghost taken = { λ v. v.items };

    fn put(&mut self, piece: &[u8]) -> Mem<()> {
        self.extend_from_slice(piece)
    }
}
