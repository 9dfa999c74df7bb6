//! What a call of the operator is answered.
ghost use Rattle.std.specs.Prelude.{◌≡◌, IfOk};

use crate::calls::OperatorRefusal;
use crate::values::JsonValue;
use std::alloc::Global;

/// What a call of the operator is answered.
#[derive(Drop)]
pub(crate) struct OperatorAnswer {
    pub(crate) status: u16,
    /// None where there is nothing to say.
    pub(crate) text: Option<Vec<u8>>,
    pub(crate) kind: TextKind,
}

/// What kind of text an answer has.
#[derive(Clone, Copy)]
pub(crate) enum TextKind {
    Json,
    Prometheus,
}

impl OperatorAnswer {
    /// A value in a line.
    pub(crate) fn of(
        alloc: Global,
        status: u16,
        value: &JsonValue,
    ) -> Result<OperatorAnswer, OperatorRefusal>
        ensures { IfOk result (λ answer. answer.status ≡ status) }
    {
        let text = value.to_line(alloc)?;
        Ok(OperatorAnswer {
            status,
            text: Some(text),
            kind: TextKind::Json,
        })
    }

    /// Numbers for a dashboard.
    pub(crate) fn of_numbers(text: Vec<u8>) -> OperatorAnswer
        ensures { result.status ≡ 200 }
    {
        OperatorAnswer {
            status: 200,
            text: Some(text),
            kind: TextKind::Prometheus,
        }
    }

    pub(crate) fn empty(status: u16) -> OperatorAnswer
        ensures { result.status ≡ status }
    {
        OperatorAnswer {
            status,
            text: None,
            kind: TextKind::Json,
        }
    }
}
