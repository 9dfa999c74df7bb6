//! The answers of watches and of keepalives: each lies in a `result` and ends a line.
ghost use Rattle.std.specs.Prelude.{◌≡◌, ◌++◌, IsTrue, OnOk};
ghost use Rattle.etcd_model.specs.ReplyText.{canceled_data, created_data, events_data, is_stream_reply};
ghost use Rattle.etcd_model.specs.ReplyText.{kept_alive_data, reply_body, stream_text};

use crate::leases::write_lease;
use crate::list::{write_item, write_list};
use crate::member::{opening, write_flag, write_signed};
use crate::text::push_str;
use etcd_types::{Event, Header, Mem, Reply};

/// What stands before the members of a `result`.
const RESULT_BEGIN: &str = "{\"result\":{";
/// What stands after them.
const RESULT_END: &str = "}}\n";

/// Writes an answer of a watch or a keepalive.
pub(crate) fn write_stream_reply(out: &mut Vec<u8>, reply: &Reply) -> Mem<()>
    requires { IsTrue (is_stream_reply reply.now) }
    ensures { OnOk result (out.new.items ≡ out.old.items ++ reply_body reply.now) }
{
    match reply {
        Reply::Created {
            header,
            watch_id,
            ..
        } => write_created(out, header, watch_id),
        Reply::Events {
            header,
            watch_id,
            events,
        } => write_events(out, header, watch_id, events.as_slice()),
        Reply::Progress { header, watch_id } => write_events(out, header, watch_id, &[]),
        Reply::Canceled {
            header,
            watch_id,
            compact_revision,
        } => write_canceled(out, header, watch_id, compact_revision),
        Reply::KeptAlive { header, id, ttl } => write_kept_alive(out, header, id, ttl),
        _ => unreachable!(),
    }
}

/// Writes the first answer of a watch.
fn write_created(out: &mut Vec<u8>, header: &Header, watch_id: &i64) -> Mem<()>
    ensures { OnOk result (out.new.items ≡ out.old.items
        ++ stream_text (created_data header.now watch_id.now)) }
{
    push_str(out, RESULT_BEGIN)?;
    let later = write_flag(out, false, "created", true)?;
    let later = write_item(out, later, "header", header)?;
    write_signed(out, later, opening!("watch_id"), watch_id)?;
    push_str(out, RESULT_END)?;
    Ok(())
}

/// Writes events, or that there are none up to a revision.
fn write_events(out: &mut Vec<u8>, header: &Header, watch_id: &i64, events: &[Event]) -> Mem<()>
    ensures { OnOk result (out.new.items ≡ out.old.items
        ++ stream_text (events_data header.now watch_id.now events.now)) }
{
    push_str(out, RESULT_BEGIN)?;
    let later = write_list(out, false, "events", events)?;
    let later = write_item(out, later, "header", header)?;
    write_signed(out, later, opening!("watch_id"), watch_id)?;
    push_str(out, RESULT_END)?;
    Ok(())
}

/// Writes the last answer of a watch.
fn write_canceled(
    out: &mut Vec<u8>,
    header: &Header,
    watch_id: &i64,
    compact_revision: &i64,
) -> Mem<()>
    ensures { OnOk result (out.new.items ≡ out.old.items
        ++ stream_text (canceled_data header.now watch_id.now compact_revision.now)) }
{
    push_str(out, RESULT_BEGIN)?;
    let later = write_flag(out, false, "canceled", true)?;
    let later = write_signed(out, later, opening!("compact_revision"), compact_revision)?;
    let later = write_item(out, later, "header", header)?;
    write_signed(out, later, opening!("watch_id"), watch_id)?;
    push_str(out, RESULT_END)?;
    Ok(())
}

/// Writes the answer to a keepalive.
fn write_kept_alive(out: &mut Vec<u8>, header: &Header, id: &i64, ttl: &i64) -> Mem<()>
    ensures { OnOk result (out.new.items ≡ out.old.items
        ++ stream_text (kept_alive_data header.now id.now ttl.now)) }
{
    push_str(out, RESULT_BEGIN)?;
    write_lease(out, header, id, ttl)?;
    push_str(out, RESULT_END)?;
    Ok(())
}
