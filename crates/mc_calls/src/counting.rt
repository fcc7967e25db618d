//! What a call and its reply are counted as.
ghost use Rattle.std.specs.Prelude.{◌≡◌};
ghost use Rattle.mc_calls.specs.Counted.{is_get, is_set, is_hit};

use crate::call::Call;
use crate::call_kind::CountedAs;
use crate::call_reply::CallReply;

impl Call {
    /// Checks whether the call gets the item of a key.
    pub fn is_get(&self) -> bool
        ensures value { result ≡ is_get self.now }
    {
        matches!(self.kind().counted(), CountedAs::AsGet)
    }

    /// Checks whether the call asks its shard to store a value, whatever the reply.
    pub fn is_set(&self) -> bool
        ensures value { result ≡ is_set self.now }
    {
        matches!(self.kind().counted(), CountedAs::AsSet)
    }

    /// Checks whether the call is a get and this reply is an item.
    pub fn is_hit(&self, reply: &CallReply) -> bool
        ensures value { result ≡ is_hit self.now reply.now }
    {
        self.is_get() && matches!(reply, CallReply::Hit { .. })
    }
}
