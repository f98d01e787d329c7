// The words that lists of labels, fields and arms are spelled in, so that two are compared at once.
ghost use Rattle.std.specs.Prelude.{◌≡◌, [], ◌∷◌, ◌++◌, option_map, None, Some, OnOk, IfOk, IfSome, IsSome};
ghost use Rattle.std.specs.Bool.{Decides};
ghost use Rattle.circus_value.specs.ShapeOf.{tree_of};
ghost use Rattle.circus_value.specs.ShapeTree.{field_trees, arm_trees};
ghost use Rattle.circus_value.specs.Seen.ShapeWords as spelled;

use crate::{Arms, Duplicate, Fields, Labels, NoMemory, Shape};
use std::alloc::Global;
use std::marker::Model;
use std::rc::Rc;

/// The words of a list that doesn't grow any more, or nothing. Copies share them. Clauses see the words.
#[derive(Debug)]
pub(crate) struct Words {
    kept: Option<Rc<Vec<u16>>>,
}

// Written out, so that dropping one is one step of a proof (docs/PROOFS.md, "Cost").
impl Drop for Words {
    fn drop(self) {
        let Words { kept: _ } = self;
    }
}

impl Model for Words {
    ghost use Rattle.std.specs.Prelude.{ℕ, List, Option};
    ghost use Rattle.circus_value.specs.Seen.ShapeWords.{words_in};

    ghost Value = { Option (List ℕ) };

    ghost view = { λ a. words_in a.kept };
}

impl Words {
    /// None.
    pub fn new() -> Self
        ensures { result ≡ None }
    {
        Words { kept: None }
    }

    /// These words.
    pub fn of(alloc: Global, words: Vec<u16>) -> Result<Self, NoMemory>
        ensures { IfOk result (λ kept. kept ≡ Some words.items) }
    {
        Ok(Words {
            kept: Some(Rc::new(alloc, words)?),
        })
    }

    /// The words, where there are any.
    pub fn as_slice(&self) -> Option<&[u16]>
        ensures { option_map (λ words. words.now) result ≡ self.now }
    {
        match &self.kept {
            Some(words) => Some(words.as_slice()),
            None => None,
        }
    }

    /// Whether the words of two lists are equal. `None` where one has none.
    pub fn are_like(&self, other: &Words) -> Option<bool>
        ensures one { IfSome result (λ same. IsSome self.now) }
        ensures other { IfSome result (λ same. IsSome other.now) }
        ensures decides { IfSome result (λ same. Decides same (self.now ≡ other.now)) }
    {
        match (&self.kept, &other.kept) {
            (Some(some), Some(others)) => Some(some.as_slice() == others.as_slice()),
            _ => None,
        }
    }
}

/// The words are shared.
impl Duplicate for Words {
    fn copy(&self) -> Result<Self, NoMemory> {
        Ok(Words {
            kept: self.kept.clone()?,
        })
    }
}

/// Adds the words of labels at the end.
pub(crate) fn spell_labels(words: &mut Vec<u16>, labels: &Labels) -> Result<(), NoMemory>
    ensures { OnOk result (words.new.items ≡ words.old.items ++ spelled.label_words labels.now) }
{
    if let Some(kept) = labels.words() {
        return words.extend_from_slice(kept);
    }
    for label in labels.as_slice() {
        add(words, 1)?;
        spell_name(words, label.name.as_slice())?;
        add(words, label.number)?;
    }
    add(words, 0)
}

/// Adds the words of fields at the end.
#[cycle(spelling)]
pub(crate) fn spell_fields(words: &mut Vec<u16>, fields: &Fields) -> Result<(), NoMemory>
    ensures { OnOk result
        (words.new.items ≡ words.old.items ++ spelled.field_words (field_trees fields.now)) }
{
    if let Some(kept) = fields.words() {
        return words.extend_from_slice(kept);
    }
    for field in fields.as_slice() {
        add(words, 1)?;
        spell_name(words, field.name.as_slice())?;
        spell_shape(words, &field.shape)?;
    }
    add(words, 0)
}

/// Adds the words of arms at the end.
#[cycle(spelling)]
pub(crate) fn spell_arms(words: &mut Vec<u16>, arms: &Arms) -> Result<(), NoMemory>
    ensures { OnOk result
        (words.new.items ≡ words.old.items ++ spelled.arm_words (arm_trees arms.now)) }
{
    if let Some(kept) = arms.words() {
        return words.extend_from_slice(kept);
    }
    for arm in arms.as_slice() {
        add(words, 1)?;
        spell_name(words, arm.name.as_slice())?;
        add(words, arm.number)?;
        spell_shape(words, &arm.shape)?;
    }
    add(words, 0)
}

#[cycle(spelling)]
fn spell_shape(words: &mut Vec<u16>, shape: &Shape) -> Result<(), NoMemory>
    ensures { OnOk result
        (words.new.items ≡ words.old.items ++ spelled.shape_words (tree_of shape.now)) }
{
    match shape {
        Shape::Boolean => add(words, 0),
        Shape::Cardinal => add(words, 1),
        Shape::LongCardinal => add(words, 2),
        Shape::Integer => add(words, 3),
        Shape::LongInteger => add(words, 4),
        Shape::Text => add(words, 5),
        Shape::Enumeration(labels) => {
            add(words, 6)?;
            spell_labels(words, labels)
        }
        Shape::Array(len, element) => {
            add(words, 7)?;
            add(words, *len)?;
            spell_shape(words, element.shape())
        }
        Shape::Sequence(bound, element) => {
            add(words, 8)?;
            add(words, *bound)?;
            spell_shape(words, element.shape())
        }
        Shape::Record(fields) => {
            add(words, 9)?;
            spell_fields(words, fields)
        }
        Shape::Choice(arms) => {
            add(words, 10)?;
            spell_arms(words, arms)
        }
    }
}

// Adds the words of a name at the end.
fn spell_name(words: &mut Vec<u16>, name: &[u8]) -> Result<(), NoMemory>
    ensures { OnOk result (words.new.items ≡ words.old.items ++ spelled.name_words name.now) }
{
    for byte in name {
        add(words, u16::from(*byte) + 1)?;
    }
    add(words, 0)
}

fn add(words: &mut Vec<u16>, word: u16) -> Result<(), NoMemory>
    ensures { OnOk result (words.new.items ≡ words.old.items ++ word ∷ []) }
{
    words.push(word)?;
    Ok(())
}
