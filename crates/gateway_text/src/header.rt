//! The headers of answers.
ghost use Rattle.etcd_model.specs.ReplyText.{header_data, inner_header_data};

use crate::list::WriteItem;
use crate::member::{opening, write_signed, write_text, write_unsigned};
use crate::text::push_byte;
use etcd_types::{Header, Mem};

impl WriteItem for Header {
    ghost data_of = { header_data };

    fn write(&self, out: &mut Vec<u8>) -> Mem<()> {
        push_byte(out, b'{')?;
        let later = write_unsigned(out, false, opening!("cluster_id"), self.cluster)?;
        let later = write_text(out, later, opening!("member_id"), "1")?;
        let later = write_text(out, later, opening!("raft_term"), "1")?;
        write_signed(out, later, opening!("revision"), &self.revision)?;
        push_byte(out, b'}')?;
        Ok(())
    }
}

/// The header of an answer within an answer: its revision alone.
#[derive(Clone, Copy)]
pub(crate) struct InnerHeader<'a>(pub(crate) &'a i64);

impl WriteItem for InnerHeader<'_> {
    ghost data_of = { λ header. inner_header_data header.0.now };

    fn write(&self, out: &mut Vec<u8>) -> Mem<()> {
        push_byte(out, b'{')?;
        write_signed(out, false, opening!("revision"), self.0)?;
        push_byte(out, b'}')?;
        Ok(())
    }
}
