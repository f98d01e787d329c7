// What is compared of a call.
ghost use Rattle.std.specs.Prelude.{◌≡◌};
ghost use Rattle.circus_gather.specs.Gathering as gathering;

use crate::HeldCall;
use circus_header::CallHeader;
use circus_value::Caller;
use std::marker::Model;

/// A call by its value: root, path, client, client index, procedure, clock and arguments. Clauses see the call.
#[derive(Drop)]
pub(crate) struct CallValue<'a> {
    call: &'a HeldCall,
}

impl<'a> Model for CallValue<'a> {
    ghost use Rattle.circus_gather.specs.declared.held.HeldCall.{HeldCall};

    ghost Value = { HeldCall };

    ghost view = { λ a. a.call.now };
}

impl<'a> CallValue<'a> {
    /// A held call, by its value.
    pub fn of(call: &'a HeldCall) -> Self
        ensures { result ≡ call.now }
    {
        CallValue { call }
    }

    /// The held call.
    pub fn call(&self) -> &'a HeldCall
        ensures { result.now ≡ self.now }
    {
        self.call
    }

    /// Who made it.
    pub fn sender(&self) -> Caller
        ensures { result ≡ self.now.sender }
    {
        self.call.sender
    }
}

impl<'a> PartialEq for CallValue<'a> {
    ghost use Rattle.circus_gather.specs.Gathering.{is_same_call};
    ghost use Rattle.circus_gather.specs.Seen.SameCalls.{same_call_per};

    ghost eq = { is_same_call };

    ghost laws = { same_call_per };

    fn eq(&self, other: &Self) -> bool {
        is_same_call(self.call, other.call)
    }
}

impl<'a> Eq for CallValue<'a> {
    ghost use Rattle.circus_gather.specs.Seen.SameCalls.{same_call_equiv};

    ghost laws = { same_call_equiv };
}

#[tactic(auto, unfolding(crate::specs::Gathering::is_same_call))]
fn is_same_call(one: &HeldCall, other: &HeldCall) -> bool
    ensures { result ≡ gathering.is_same_call one.now other.now }
{
    is_of_one_thread(&one.header, &other.header)
        && is_of_one_client(&one.header, &other.header)
        && one.header.procedure == other.header.procedure
        && one.body == other.body
}

fn is_of_one_thread(one: &CallHeader, other: &CallHeader) -> bool
    ensures { result ≡ gathering.is_of_one_thread one.now other.now }
{
    one.root == other.root && one.path == other.path && one.clock == other.clock
}

fn is_of_one_client(one: &CallHeader, other: &CallHeader) -> bool
    ensures { result ≡ gathering.is_of_one_client one.now other.now }
{
    one.client == other.client && one.client_index == other.client_index
}
