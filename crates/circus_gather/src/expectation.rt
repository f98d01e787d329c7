// Who is expected to make a call.
ghost use Rattle.std.specs.Prelude.{◌≡◌, []};

use crate::call_value::CallValue;
use circus_collate::{Expectation, Expected, View, Views};

/// The members of the client's view that perform the client's index themselves.
#[derive(Drop)]
pub(crate) struct ExpectedCallers<'a> {
    pub views: &'a Views,
    /// A view of nobody, for a client of no troupe.
    pub nobody: &'a View,
    ghost no_entries: { nobody.now.entries ≡ [] },
}

impl<'a, 'b> Expectation<CallValue<'b>> for ExpectedCallers<'a> {
    ghost use Rattle.circus_gather.specs.Gathering.{expected_callers};

    ghost nodes = { λ e call. expected_callers e.views.now call };

    #[tactic(auto, unfolding(crate::specs::Gathering::expected_callers, circus_collate::specs::Expecting::expected_nodes))]
    fn of<'c>(&'c self, value: &CallValue<'b>) -> Expected<'c> {
        let header = &value.call().header;
        match self.views.get(usize::from(header.client)) {
            Some(view) => view.expects(header.client_index),
            None => self.nobody.expects(header.client_index),
        }
    }
}
