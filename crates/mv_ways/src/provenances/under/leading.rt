// Which provenances lead to a reference's.
ghost use Rattle.std.specs.Prelude.{ℕ, ◌≡◌, ◌≤◌, ◌<◌, ◌==◌, ◌||◌, length, slice_index_or, nat_lt, false, true, IsTrue};
ghost use Rattle.std.specs.List.{list_all, list_any};
ghost use Rattle.mv_ways.specs.Going.{AreLeading, IsReturned, does_lead, given, goes_over, says_passed, was_given};
ghost use Rattle.mv_ways.specs.Provenances.{are_earlier, goes_below};
ghost use Rattle.mv_ways.specs.declared.provenances.under.leading.Mark.{Mark as MarkRecord};

use super::super::derivation::derived_from;
use super::super::{Provenance, ProvenanceGraph};
use std::mem::size_of;

/// What is noted of a provenance while the edges of a reference are gone through.
#[derive(Clone, Copy, Debug)]
pub(crate) enum Mark {
    /// It doesn't lead to the reference's provenance.
    Nothing,
    /// It leads there.
    Leads,
    /// It leads there, and so does something that a function returned which had it.
    Given,
    /// What is derived for it, opened, is below others.
    Passed,
}

// Of each provenance one byte is noted.
const _: () = prove!(size_of::<Mark>() == 1);

impl Mark {
    /// What is noted of a provenance of which it is known whether it is passed.
    pub(super) fn asked(is_passed: bool) -> Mark
        ensures { says_passed result ≡ is_passed }
    {
        if is_passed {
            Mark::Passed
        } else {
            Mark::Nothing
        }
    }

    /// The same of a provenance that leads there.
    fn leading(self) -> Mark
        ensures leads { does_lead result ≡ true }
        ensures given { was_given result ≡ was_given self }
    {
        match self {
            Mark::Given => Mark::Given,
            Mark::Nothing | Mark::Leads | Mark::Passed => Mark::Leads,
        }
    }

    /// Whether the provenance leads there.
    pub(super) fn leads(self) -> bool
        ensures { result ≡ does_lead self }
    {
        match self {
            Mark::Leads | Mark::Given => true,
            Mark::Nothing | Mark::Passed => false,
        }
    }

    /// Whether something leads there that a function returned which had the provenance.
    pub(crate) fn was_given(self) -> bool
        ensures { result ≡ was_given self }
    {
        match self {
            Mark::Given => true,
            Mark::Nothing | Mark::Leads | Mark::Passed => false,
        }
    }

    /// Whether what is derived for the provenance, opened, is below others.
    pub(super) fn is_passed(self) -> bool
        ensures { result ≡ says_passed self }
    {
        match self {
            Mark::Passed => true,
            Mark::Nothing | Mark::Leads | Mark::Given => false,
        }
    }
}

/// The provenances that a function was given, if this is the provenance of what it returned.
fn given(provenance: &Provenance) -> &[usize]
    ensures { result.now ≡ given provenance.now }
{
    match provenance {
        Provenance::Returned(provenances) => provenances.as_slice(),
        Provenance::Stated(_) | Provenance::Lent { .. } | Provenance::Field { .. } => &[],
    }
}

/// Notes that no provenance leads there.
fn unmark(marks: &mut [Mark])
    ensures leads { (k : ℕ) (d : MarkRecord) → k < length marks.old → does_lead (slice_index_or marks.new k d) ≡ false }
    ensures given { (k : ℕ) (d : MarkRecord) → k < length marks.old → was_given (slice_index_or marks.new k d) ≡ false }
{
    for mark in marks.iter_mut() {
        *mark = Mark::Nothing;
    }
}

/// Notes of provenances that a function had them and returned something that leads there.
fn mark_given(marks: &mut [Mark], provenances: &[usize])
    requires { IsTrue (list_all (λ k. nat_lt k (length marks.old)) provenances.now) }
    ensures leads { (k : ℕ) (d : MarkRecord) → k < length marks.old
        → does_lead (slice_index_or marks.new k d) ≡ (does_lead (slice_index_or marks.old k d) || list_any (λ over. over == k) provenances.now) }
    ensures given { (k : ℕ) (d : MarkRecord) → k < length marks.old
        → was_given (slice_index_or marks.new k d) ≡ (was_given (slice_index_or marks.old k d) || list_any (λ over. over == k) provenances.now) }
{
    for over in provenances {
        marks[*over] = Mark::Given;
    }
}

/// Notes that what a provenance goes over leads where the provenance does.
fn mark_over(marks: &mut [Mark], provenance: &Provenance)
    requires { IsTrue (goes_below (length marks.old) provenance.now) }
    ensures leads { (k : ℕ) (d : MarkRecord) → k < length marks.old
        → does_lead (slice_index_or marks.new k d) ≡ (does_lead (slice_index_or marks.old k d) || goes_over provenance.now k) }
    ensures given { (k : ℕ) (d : MarkRecord) → k < length marks.old
        → was_given (slice_index_or marks.new k d) ≡ (was_given (slice_index_or marks.old k d)
        || list_any (λ over. over == k) (given provenance.now)) }
{
    if let Some(over) = derived_from(provenance) {
        marks[over] = marks[over].leading();
    }
    mark_given(marks, given(provenance));
}

/// The place behind the last provenance that is marked as given to a function.
fn end_of_given(marks: &[Mark]) -> usize
    ensures within { result ≤ length marks.now }
    ensures none { (k : ℕ) (d : MarkRecord) → result ≤ k → k < length marks.now → was_given (slice_index_or marks.now k d) ≡ false }
{
    let mut end = marks.len();
    while end > 0 && !marks[end - 1].was_given() {
        end -= 1;
    }
    end
}

impl ProvenanceGraph {
    /// Notes which provenances lead to the last one that counts.
    fn mark(&self, marks: &mut [Mark], last: usize)
        requires room { length marks.old ≡ length self.now.provenances }
        requires earlier { IsTrue (are_earlier 0 self.now.provenances) }
        requires inside { last < length self.now.provenances }
        ensures { AreLeading self.now.provenances last marks.new }
    {
        unmark(marks);
        marks[last] = Mark::Leads;
        let mut place = last + 1;
        while place > 0 {
            place -= 1;
            if marks[place].leads() {
                mark_over(marks, &self.provenances()[place]);
            }
        }
    }

    /// Whether a function that had any provenance returned what this one is derived from.
    fn is_derived_from_result(&self, last: usize) -> bool
        requires { last < length self.now.provenances }
        ensures { (k : ℕ) → IsReturned self.now.provenances last 0 k → IsTrue result }
    {
        let mut next = Some(last);
        while let Some(place) = next {
            let provenance = &self.provenances()[place];
            if !given(provenance).is_empty() {
                return true;
            }
            next = derived_from(provenance);
        }
        false
    }

    /// Notes which provenances lead to one, unless none was given to a function, and returns the place behind the last that was.
    pub(crate) fn mark_given_to(&self, marks: &mut [Mark], last: usize) -> usize
        requires room { length marks.old ≡ length self.now.provenances }
        requires earlier { IsTrue (are_earlier 0 self.now.provenances) }
        requires inside { last < length self.now.provenances }
        ensures within { result ≤ length self.now.provenances }
        ensures before { (k : ℕ) → IsReturned self.now.provenances last 0 k → k < result }
        ensures leading { 0 < result → AreLeading self.now.provenances last marks.new }
    {
        if !self.is_derived_from_result(last) {
            return 0;
        }
        self.mark(marks, last);
        end_of_given(marks)
    }
}
