//! What an object has beside members that were found. Most have few of those that they may have, so no member is looked
//! for once as many were found as there are.
ghost use Rattle.std.specs.Prelude.{◌≡◌, ◌≤◌, true, None, [], ◌∷◌, option_map};
ghost use Rattle.serde_json.specs.View.{view};
ghost use Rattle.etcd_model.specs.Members.{member_of};
ghost use Rattle.gateway_json.specs.Others.{are_all, member_count};

use crate::member::{PlainMember, member_of};
use etcd_types::{MemberName, Refusal};
use serde_json::Value;

/// How many members an object has; none for what is no object.
fn member_count(value: &Value) -> usize
    ensures { result ≡ member_count (view value.now) }
{
    match value {
        Value::Object(members) => members.len(),
        _ => 0,
    }
}

/// The members of an object beside those that were found.
#[derive(Clone, Copy)]
pub(crate) struct Others<'v> {
    object: &'v Value,
    /// Whether the object has just those that were found.
    are_none: bool,
}

impl<'v> Others<'v> {
    /// Those beside three members, of which some may be absent. Each is looked for under a name of its own.
    pub(crate) fn beside(
        object: &'v Value,
        first: Option<&Value>,
        second: Option<&Value>,
        third: Option<&Value>,
    ) -> Others<'v>
        ensures object { view result.object.now ≡ view object.now }
        ensures none { result.are_none ≡ are_all (option_map (λ v. view v.now) first.entry
            ∷ option_map (λ v. view v.now) second.entry ∷ option_map (λ v. view v.now) third.entry ∷ [])
            (view object.now) }
    {
        let found = usize::from(first.is_some())
            + usize::from(second.is_some())
            + usize::from(third.is_some());
        Others {
            object,
            are_none: found == member_count(object),
        }
    }

    /// The member of another name.
    pub(crate) fn member(&self, name: MemberName) -> Option<&'v Value>
        requires { self.now.are_none ≡ true → member_of name (view self.now.object.now) ≡ None }
        ensures { option_map (λ v. view v.now) result ≡ member_of name (view self.now.object.now) }
    {
        if self.are_none {
            None
        } else {
            member_of(self.object, name)
        }
    }

    /// Reads the member of another name, which takes no memory.
    pub(crate) fn read<T: PlainMember>(&self, name: MemberName) -> Result<T, Refusal>
        requires { self.now.are_none ≡ true → member_of name (view self.now.object.now) ≡ None }
        ensures { result ≡ T.reads (member_of name (view self.now.object.now)) }
    {
        T::read(self.member(name))
    }
}
