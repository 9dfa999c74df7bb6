//! The words that every layer speaks: what a tenant may be asked, what it answers, and the limits of both.
#![tactic(auto)]

mod alarm;
mod call;
mod cell_no;
mod copy;
mod key_value;
mod kv;
mod lease;
pub mod limits;
mod list;
mod refusal;
mod reply;
mod rows;
mod step;
mod txn;
mod watch;

pub use alarm::{AlarmAction, AlarmKind, AlarmReq};
pub use call::{Call, MemberName};
pub use cell_no::CellNo;
pub use copy::{CopyOf, Mem};
pub use key_value::{Event, EventKind, KeyValue};
pub use kv::{DeleteReq, PutReq, RangeReq, SortOrder, SortTarget};
pub use lease::GrantReq;
pub use list::List;
pub use refusal::Refusal;
pub use reply::{Header, OpReply, Reply};
pub use rows::{RangeInPlace, ReplyInPlace, RowShape, RowsInPlace};
pub use step::Step;
pub use txn::{Compare, CompareResult, CompareTarget, Op, Operand, TxnReq};
pub use watch::{Filters, WatchReq};
