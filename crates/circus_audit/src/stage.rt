// How far a record is read.
use crate::noted::{Happened, Notes};
use crate::performed::Performed;
use circus_collate::Views;
use circus_record::MemberRecord;

/// How far a record is read behind its first line: which lines may come next, and what those before say.
#[derive(Drop)]
pub(crate) enum Stage {
    /// Lines of events, or the first of those behind them.
    Events(Happened),
    /// Lines of an active member.
    Runs(Notes, Performed),
    /// Views, behind the line of the Ringmaster.
    Watching(Notes, Views),
    /// None.
    Done(Notes, Option<MemberRecord>, Option<Views>),
}
