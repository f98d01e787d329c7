// Sorts where they are wanted.
ghost use Rattle.std.specs.Prelude.{◌≡◌, option_map};
ghost use Rattle.circus_resolve.specs.Faults as faults;
ghost use Rattle.circus_resolve.specs.Passing as passing;
ghost use Rattle.circus_resolve.specs.Seen.Found.{with_faults};
ghost use Rattle.circus_resolve.specs.Seen.Scoped.{sort_as, shape_as};

use crate::{CheckCause, Findings, Sort};
use circus_expression::Operator;
use circus_value::Shape;

impl Findings {
    // Where the sort is known it has to pass.
    fn want(&mut self, passes: bool, at: u32)
        ensures { self.new ≡ with_faults self.old (faults.faults_unless passes at) }
    {
        self.note(!passes, at, CheckCause::Mistyped);
    }

    /// A truth value is wanted of what stands at the place.
    pub fn want_truth(&mut self, sort: Option<Sort<'_>>, at: u32)
        ensures { self.new
            ≡ with_faults self.old
            (faults.wanted_faults passing.is_truth (option_map sort_as sort.entry) at) }
    {
        if let Some(sort) = sort {
            self.want(sort.is_truth(), at);
        }
    }

    /// A number.
    pub fn want_number(&mut self, sort: Option<Sort<'_>>, at: u32)
        ensures { self.new
            ≡ with_faults self.old
            (faults.wanted_faults passing.is_number (option_map sort_as sort.entry) at) }
    {
        if let Some(sort) = sort {
            self.want(sort.is_number(), at);
        }
    }

    /// A text.
    pub fn want_text(&mut self, sort: Option<Sort<'_>>, at: u32)
        ensures { self.new
            ≡ with_faults self.old
            (faults.wanted_faults passing.is_text (option_map sort_as sort.entry) at) }
    {
        if let Some(sort) = sort {
            self.want(sort.is_text(), at);
        }
    }

    /// A text or a sequence.
    pub fn want_length(&mut self, sort: Option<Sort<'_>>, at: u32)
        ensures { self.new
            ≡ with_faults self.old
            (faults.wanted_faults passing.has_length (option_map sort_as sort.entry) at) }
    {
        if let Some(sort) = sort {
            self.want(sort.has_length(), at);
        }
    }

    /// A value that goes where the shape is, where that is known.
    pub fn want_for(&mut self, shape: Option<&Shape>, sort: Option<Sort<'_>>, at: u32)
        ensures { self.new
            ≡ with_faults self.old
            (faults.wanted_for (shape_as shape.entry) (option_map sort_as sort.entry) at) }
    {
        if let (Some(shape), Some(sort)) = (shape, sort) {
            self.want(sort.goes_into(shape), at);
        }
    }

    /// Two of one sort.
    pub fn want_alike(&mut self, one: Option<Sort<'_>>, two: Option<Sort<'_>>, at: u32)
        ensures { self.new
            ≡ with_faults self.old
            (faults.wanted_alike (option_map sort_as one.entry) (option_map sort_as two.entry) at) }
    {
        if let (Some(one), Some(two)) = (one, two) {
            self.want(one.is_like(two), at);
        }
    }

    /// What an operator wants of its operands.
    pub fn want_operands(
        &mut self,
        operator: Operator,
        one: Option<Sort<'_>>,
        one_at: u32,
        two: Option<Sort<'_>>,
        two_at: u32,
    )
        ensures { self.new
            ≡ with_faults self.old
            (faults.operand_faults operator (option_map sort_as one.entry) one_at
            (option_map sort_as two.entry) two_at) }
    {
        match operator {
            Operator::Or | Operator::And => {
                self.want_truth(one, one_at);
                self.want_truth(two, two_at);
            }
            Operator::Equal | Operator::Unequal => self.want_alike(one, two, one_at),
            Operator::Join => {
                self.want_text(one, one_at);
                self.want_text(two, two_at);
            }
            _ => {
                self.want_number(one, one_at);
                self.want_number(two, two_at);
            }
        }
    }
}
