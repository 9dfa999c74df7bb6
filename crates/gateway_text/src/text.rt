//! Pieces of a text, each written behind what is there.
ghost use Rattle.std.specs.Prelude.{◌≡◌, ◌++◌, ◌∷◌, [], OnOk};
ghost use Rattle.base64.specs.Engines.{standard};
ghost use Rattle.base64.specs.GeneralPurpose.{encode_of};

use base64::encoded_len;
use base64::engine::general_purpose::STANDARD;
use etcd_types::Mem;
use std::alloc::AllocError;

/// Writes a piece as it is.
pub(crate) fn push_str(out: &mut Vec<u8>, piece: &str) -> Mem<()>
    ensures bytes { OnOk result (out.new.items ≡ out.old.items ++ piece.now) }
{
    out.extend_from_slice(piece.as_bytes())
}

/// Writes one byte.
pub(crate) fn push_byte(out: &mut Vec<u8>, byte: u8) -> Mem<()>
    ensures bytes { OnOk result (out.new.items ≡ out.old.items ++ byte ∷ []) }
{
    out.push(byte)?;
    Ok(())
}

/// Writes bytes in base64, straight to their place: the kit's way into a string clears a kilobyte for each.
pub(crate) fn push_base64(out: &mut Vec<u8>, bytes: &[u8]) -> Mem<()>
    ensures bytes { OnOk result (out.new.items ≡ out.old.items ++ encode_of standard bytes.now) }
{
    let start = out.len();
    let Some(length) = encoded_len(bytes.len(), true) else {
        return Err(AllocError);
    };
    let Some(end) = start.checked_add(length) else {
        return Err(AllocError);
    };
    out.resize(end, 0)?;
    match STANDARD.encode_slice(bytes, &mut out[start..]) {
        Ok(_) => Ok(()),
        Err(_) => unreachable!(),
    }
}
