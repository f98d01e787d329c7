// Messages of one kind that come in, and their parts.
ghost use Rattle.std.specs.Prelude.{◌≡◌, ◌≤◌, not, ◌||◌, ◌&&◌, ◌==◌, length, [], option_copied, unwrap_or, if◌then◌else◌, IfOk, OnOk, OnErr};
ghost use Rattle.std.specs.FinMap as map;
ghost use Rattle.circus_segment.specs.Segment.{part_size, most_segments, has_data};
ghost use Rattle.circus_segment.specs.Seen.Pieces.{piece};
ghost use Rattle.circus_exchange.specs.Inbox.{front, part_of, is_there};

use crate::advance::Advance;
use crate::held::{Held, Part};
use crate::progress::Progress;
use crate::series::Series;
use bytes::Bytes;
use circus_segment::Segment;
use circus_value::{NoMemory, Parts};
use std::alloc::Global;
use std::marker::Model;

/// What came of the messages of one kind. Of a message that is whole only its total is kept.
#[derive(Drop)]
pub struct Inbox {
    progress: Series<Progress>,
    parts: Held,
}

impl Model for Inbox {
    ghost use Rattle.std.specs.Prelude.{ℕ, List, refl};
    ghost use Rattle.std.specs.Ordering.{nat_cmp};
    ghost use Rattle.std.specs.FinMap as map;
    ghost use Rattle.std.specs.Coded.{coded_ℕ, coded_list, coded×, code_by};
    ghost use Rattle.circus_exchange.specs.declared.progress.Progress.{Progress};
    ghost use Rattle.circus_exchange.specs.contracts.progress.Progress as progress_model;
    ghost use Rattle.circus_exchange.specs.Inbox.{Arriving};
    ghost use Rattle.circus_exchange.specs.Seen.Known.{AreKnown};

    ghost Value = { Arriving };

    ghost coded = { code_by (map.FinMap nat_cmp Progress × map.FinMap nat_cmp (map.FinMap nat_cmp (List ℕ))) (coded× (map.code coded_ℕ progress_model.the_row.coded) (map.code coded_ℕ (map.code coded_ℕ (coded_list coded_ℕ)))) (λ a. (a.progress, a.parts)) (λ p. record { progress = p.0; parts = p.1 }) (λ _. refl) };

    ghost view = { λ a. record { progress = a.progress; parts = a.parts } };

    ghost invariant = { λ a. AreKnown a.progress a.parts };
}

impl Inbox {
    ghost use Rattle.circus_exchange.specs.Inbox.{progress_so_far, fits, is_new, count_with, completes, data_with, data_up_to, add_segment};

    /// No messages; that of this number is expected first.
    pub fn new(alloc: Global, first: u32) -> Self
        ensures progress { result.progress ≡ map.empty }
        ensures parts { result.parts ≡ map.empty }
    {
        Inbox {
            progress: Series::new(alloc, first),
            parts: Held::new(alloc),
        }
    }

    /// How far the message of a call has come.
    pub fn progress_of(&self, call: u32) -> Option<Progress>
        ensures { result ≡ map.get self.now.progress call }
    {
        self.progress.get(call).copied()
    }

    // What is known of the message of a segment.
    #[tactic(auto, unfolding(crate::specs::Inbox::progress_so_far))]
    fn progress_so_far(&self, segment: &Segment<'_>) -> Progress
        ensures { result ≡ progress_so_far self.now (piece segment.now) }
    {
        match self.progress_of(segment.call) {
            Some(progress) => progress,
            None => Progress {
                total: segment.total,
                count: 0,
            },
        }
    }

    /// Whether a segment has the total of its message.
    #[tactic(auto, unfolding(crate::specs::Inbox::fits))]
    pub fn fits(&self, segment: &Segment<'_>) -> bool
        ensures { result ≡ fits self.now (piece segment.now) }
    {
        self.progress_so_far(segment).total == segment.total
    }

    /// How far a segment brings its message.
    pub fn advance(&self, segment: &Segment<'_>) -> Advance
        requires within { segment.now.number ≤ segment.now.total }
        ensures is_new { result.is_new ≡ is_new self.now (piece segment.now) }
        ensures count { result.count ≡ count_with self.now (piece segment.now) }
        ensures completes { (result.is_new && (result.count == segment.now.total))
            ≡ completes self.now (piece segment.now) }
    {
        let known = self.progress_so_far(segment);
        let parts = self.parts.of(segment.call);
        let is_new = is_new(known, parts, segment);
        let count = if is_new {
            count_with(known, parts, segment)
        } else {
            known.count
        };
        Advance { is_new, count }
    }

    /// The message that a segment completes, if it completes one: a copy of its data, behind the parts that are there,
    /// which are shared.
    pub fn message_completed(
        &self,
        alloc: Global,
        segment: &Segment<'_>,
        advance: Advance,
    ) -> Result<Option<Parts>, NoMemory>
        requires short { length segment.now.part.now ≤ part_size }
        requires total { segment.now.total ≤ most_segments 2 }
        requires completes { (advance.is_new && (advance.count == segment.now.total))
            ≡ completes self.now (piece segment.now) }
        ensures { IfOk result (λ message.
            message ≡ (if completes self.now (piece segment.now)
            then Some (data_up_to (data_with self.now (piece segment.now)) segment.now.total)
            else None)) }
    {
        if !advance.completes(segment) {
            return Ok(None);
        }
        Ok(Some(self.message(alloc, segment)?))
    }

    fn message(&self, alloc: Global, segment: &Segment<'_>) -> Result<Parts, NoMemory>
        requires short { length segment.now.part.now ≤ part_size }
        requires total { segment.now.total ≤ most_segments 2 }
        ensures { IfOk result (λ message.
            message ≡ data_up_to (data_with self.now (piece segment.now)) segment.now.total) }
    {
        let parts = self.parts.of(segment.call);
        let mut message = Parts::new(alloc);
        for before in 0..segment.total {
            message.add(data_with(alloc, parts, segment, before + 1)?)?;
        }
        Ok(message)
    }

    /// Adds a segment, of whose data a copy is kept where it is new and its message is not whole. After `NoMemory` nothing
    /// has changed.
    pub fn add(
        &mut self,
        alloc: Global,
        segment: &Segment<'_>,
        advance: Advance,
    ) -> Result<(), NoMemory>
        requires short { length segment.now.part.now ≤ part_size }
        requires is_new { advance.is_new ≡ is_new self.old (piece segment.now) }
        requires count { advance.count ≡ count_with self.old (piece segment.now) }
        ensures ok { OnOk result (self.new ≡ add_segment self.old (piece segment.now)) }
        ensures err { OnErr result (self.new ≡ self.old) }
    {
        let progress = Progress {
            total: segment.total,
            count: advance.count,
        };
        if !advance.is_new {
            return self.progress.insert(segment.call, progress);
        }
        if advance.completes(segment) {
            self.progress.insert(segment.call, progress)?;
            self.parts.forget(segment.call);
            return Ok(());
        }
        let part = Part::of(Bytes::copy_from_slice(alloc, segment.part)?);
        self.parts.add(alloc, segment.call, segment.number, part)?;
        let noted = self.progress.insert(segment.call, progress);
        if noted.is_err() {
            self.parts.forget(segment.call);
        }
        noted
    }
}

// Whether the data of a number is there, of a message of which this much is known.
fn has(known: Progress, parts: Option<&Series<Part>>, number: u16) -> bool
    ensures { result ≡ is_there known (option_copied parts.entry) number }
{
    number <= known.count || part_at(parts, number).is_some()
}

// Whether a segment has data that is not there yet.
fn is_new(known: Progress, parts: Option<&Series<Part>>, segment: &Segment<'_>) -> bool
    ensures { result
        ≡ (has_data (piece segment.now) && not
        (is_there known (option_copied parts.entry) segment.now.number)) }
{
    segment.has_data() && !has(known, parts, segment.number)
}

// Whether it is there with a segment.
fn has_with(
    known: Progress,
    parts: Option<&Series<Part>>,
    segment: &Segment<'_>,
    number: u16,
) -> bool
    ensures { result
        ≡ (is_there known (option_copied parts.entry) number || number == segment.now.number) }
{
    has(known, parts, number) || number == segment.number
}

// How many segments are there with one, from the first on without a gap.
fn count_with(known: Progress, parts: Option<&Series<Part>>, segment: &Segment<'_>) -> u16
    requires { known.count ≤ segment.now.total }
    ensures { result
        ≡ front (λ number.
        is_there known (option_copied parts.entry) number || number == segment.now.number)
        segment.now.total }
{
    let mut count = known.count;
    while count < segment.total && has_with(known, parts, segment, count + 1) {
        count += 1;
    }
    count
}

fn part_at<'a>(parts: Option<&'a Series<Part>>, number: u16) -> Option<&'a Part>
    ensures { option_copied result ≡ part_of (option_copied parts.entry) number }
{
    parts?.get(u32::from(number))
}

// The data of a number, with a segment.
fn data_with(
    alloc: Global,
    parts: Option<&Series<Part>>,
    segment: &Segment<'_>,
    number: u16,
) -> Result<Bytes, NoMemory>
    requires { length segment.now.part.now ≤ part_size }
    ensures value { IfOk result (λ bytes.
        bytes ≡ (if number == segment.now.number then segment.now.part.now
        else unwrap_or (part_of (option_copied parts.entry) number) [])) }
    ensures short { IfOk result (λ bytes. length bytes ≤ part_size) }
{
    if number == segment.number {
        return Bytes::copy_from_slice(alloc, segment.part);
    }
    match part_at(parts, number) {
        Some(part) => part.share(),
        None => Ok(Bytes::new()),
    }
}
