// The machine that returns the body of an answer whose head stands whole.
ghost use Rattle.std.specs.Prelude.{◌≡◌, ◌≢◌, ◌≤◌, ◌<◌, ◌+◌, ◌^◌, ◌++◌, List, ℕ, Bool, None, [], IfOk, OnOk, OnErr, is_some, not, length};
ghost use Rattle.px_framing.specs.Passing.{bytes_left};
ghost use Rattle.px_framing.specs.Reading.{IsSettled, stage_state, added};
ghost use Rattle.px_framing.specs.declared.places.State.TheVariants as state;
ghost use Rattle.px_answers.specs.Forms.{body_of, is_more};
ghost use Rattle.px_answers.specs.Finished.{Work, by_end, returned_so_far};
ghost use Rattle.px_answers.specs.Passages.{CourseAfter, AreOwn, AreWholeChunks, BeginsReturned, EndsCourse, IsRaw, IsSoundCourse, PassesFront, Read, ended_of, held_of, passing, room_of};

use crate::bodies::{data_of, push_formed, stands, take};
use crate::courses::Course;
use crate::filtering::push_filtered;
use crate::forms::{AnswerOutcome, Form, Framed, Returned};
use crate::heads::push_passed_head;
use crate::laws::raw_again;
use crate::outcomes::{is_more, is_open, is_whole, passed_outcome};
use px_base::{Mem, Text};
use px_filter_files::WarmFilters;
use px_framing::{BodyReader, State};
use px_subst::Vars;
use std::alloc::Global;
use std::marker::Model;
use std::mem::replace;

/// Puts out all that is returned of a body that was held and is at its end.
fn conclude(
    alloc: Global,
    warm: &mut WarmFilters<'_>,
    vars: &Vars,
    framed: &Framed,
    raw: Text,
    state: State,
    out: &mut Text,
) -> Result<AnswerOutcome, Mem>
    requires own { AreOwn framed.now.rule raw }
    requires whole { state ≡ State.Whole → AreWholeChunks framed.now.rule raw }
    ensures outcome { IfOk result (λ outcome. outcome ≡ (by_end (record { filters = warm.old; vars = vars.now }) framed.now raw (body_of framed.now.rule raw).plain state).outcome) }
    ensures put { IfOk result (λ _. out.new ≡ out.old ++ (by_end (record { filters = warm.old; vars = vars.now }) framed.now raw (body_of framed.now.rule raw).plain state).bytes) }
    ensures kept { OnErr result (out.new ≡ out.old ++ added out.old out.new) }
    ensures same { warm.new ≡ warm.old }
{
    if is_open(framed, raw.len()) && is_whole(state) {
        let plain = data_of(framed.rule, raw)?;
        push_filtered(alloc, warm, vars, framed, plain, out)?;
        Ok(AnswerOutcome {
            returned: Returned::Filtered,
            keep: framed.keep,
        })
    } else {
        push_passed_head(framed, out)?;
        push_formed(alloc, framed.form, framed.rule, raw.as_bytes(), out)?;
        Ok(passed_outcome(framed, is_whole(state)))
    }
}

/// What follows of a body that was held, and of which so much was read.
fn settle(
    alloc: Global,
    warm: &mut WarmFilters<'_>,
    vars: &Vars,
    framed: &Framed,
    raw: Text,
    reader: BodyReader,
    out: &mut Text,
) -> Result<Course, Mem>
    requires raw { IsRaw framed.now.rule raw reader }
    ensures after { IfOk result (λ next. (rest plain : List ℕ) → Read framed.now.rule rest raw plain reader
        → CourseAfter (record { filters = warm.old; vars = vars.now }) framed.now rest (added out.old out.new) next) }
    ensures sound { IfOk result (λ next. IsSoundCourse framed.now next) }
    ensures grows { IfOk result (λ _. out.new ≡ out.old ++ added out.old out.new) }
    ensures kept { OnErr result (out.new ≡ out.old ++ added out.old out.new) }
    ensures room { IfOk result (λ next. room_of next ≤ bytes_left reader.stage) }
    ensures more { IfOk result (λ next. ended_of next ≡ None → stage_state reader.stage ≡ State.More) }
    ensures same { warm.new ≡ warm.old }
{
    raw_again();
    let state = reader.state();
    if !is_more(state) {
        let outcome = conclude(alloc, warm, vars, framed, raw, state, out)?;
        return Ok(Course::Ended(outcome));
    }
    if is_open(framed, raw.len()) {
        return Ok(Course::Holding { raw, reader });
    }
    push_passed_head(framed, out)?;
    push_formed(alloc, framed.form, framed.rule, raw.as_bytes(), out)?;
    Ok(Course::Passing { reader })
}

/// The course of an unfiltered body, so far read.
fn passing(framed: &Framed, reader: BodyReader) -> Course
    ensures is { result ≡ passing framed.now reader }
    ensures settled { IsSettled reader }
{
    let state = reader.state();
    if is_more(state) {
        Course::Passing { reader }
    } else {
        Course::Ended(passed_outcome(framed, is_whole(state)))
    }
}

/// Goes on with a body that isn't filtered.
fn pass_on(framed: &Framed, reader: BodyReader, piece: &[u8], out: &mut Text) -> Result<Course, Mem>
    ensures after { IfOk result (λ next. (w : Work) (rest put : List ℕ) → PassesFront framed.now rest put reader
        → CourseAfter w framed.now (rest ++ piece.now) (put ++ added out.old out.new) next) }
    ensures sound { IfOk result (λ next. IsSoundCourse framed.now next) }
    ensures grows { IfOk result (λ _. out.new ≡ out.old ++ added out.old out.new) }
    ensures kept { OnErr result (out.new ≡ out.old ++ added out.old out.new) }
    ensures room { IfOk result (λ next. ended_of next ≡ None → room_of next + length piece.now ≡ bytes_left reader.stage) }
{
    let mut reader = reader;
    take(framed.form, &mut reader, piece, out)?;
    Ok(passing(framed, reader))
}

/// Feeds a piece to a course.
fn advance(
    alloc: Global,
    warm: &mut WarmFilters<'_>,
    vars: &Vars,
    framed: &Framed,
    course: Course,
    piece: &[u8],
    out: &mut Text,
) -> Result<Course, Mem>
    requires sound { IsSoundCourse framed.now course }
    ensures after { IfOk result (λ next. (rest put : List ℕ) → CourseAfter (record { filters = warm.old; vars = vars.now }) framed.now rest put course
        → CourseAfter (record { filters = warm.old; vars = vars.now }) framed.now (rest ++ piece.now) (put ++ added out.old out.new) next) }
    ensures sound { IfOk result (λ next. IsSoundCourse framed.now next) }
    ensures grows { IfOk result (λ _. out.new ≡ out.old ++ added out.old out.new) }
    ensures kept { OnErr result (out.new ≡ out.old ++ added out.old out.new) }
    ensures room { IfOk result (λ next. ended_of next ≡ None → room_of next + length piece.now ≤ room_of course) }
    ensures repeats { (outcome : AnswerOutcome) → course ≡ Course.Ended outcome → IfOk result (λ next. (next ≡ course) × (out.new ≡ out.old)) }
    ensures wanting { course ≡ Course.Wanting → IfOk result (λ _. ⊥) }
    ensures same { warm.new ≡ warm.old }
{
    match course {
        Course::Holding { raw, reader } => {
            let mut raw = raw;
            let mut reader = reader;
            take(Form::Raw, &mut reader, piece, &mut raw)?;
            let next = settle(alloc, warm, vars, framed, raw, reader, out)?;
            Ok(next)
        }
        Course::Passing { reader } => {
            let next = pass_on(framed, reader, piece, out)?;
            Ok(next)
        }
        Course::Ended(outcome) => Ok(Course::Ended(outcome)),
        Course::Wanting => Err(Mem),
    }
}

/// Ends the bytes of a course.
fn finish(
    alloc: Global,
    warm: &mut WarmFilters<'_>,
    vars: &Vars,
    framed: &Framed,
    course: Course,
    failed: bool,
    out: &mut Text,
) -> Result<AnswerOutcome, Mem>
    requires sound { IsSoundCourse framed.now course }
    ensures ended { IfOk result (λ outcome. (rest put : List ℕ) → CourseAfter (record { filters = warm.old; vars = vars.now }) framed.now rest put course
        → EndsCourse (record { filters = warm.old; vars = vars.now }) framed.now rest failed (put ++ added out.old out.new) (Course.Ended outcome)) }
    ensures grows { IfOk result (λ _. out.new ≡ out.old ++ added out.old out.new) }
    ensures kept { OnErr result (out.new ≡ out.old ++ added out.old out.new) }
    ensures repeats { (outcome : AnswerOutcome) → course ≡ Course.Ended outcome → IfOk result (λ again. (again ≡ outcome) × (out.new ≡ out.old)) }
    ensures wanting { course ≡ Course.Wanting → IfOk result (λ _. ⊥) }
    ensures same { warm.new ≡ warm.old }
{
    match course {
        Course::Holding { raw, reader } => {
            raw_again();
            let state = stands(reader, failed);
            let outcome = conclude(alloc, warm, vars, framed, raw, state, out)?;
            Ok(outcome)
        }
        Course::Passing { reader } => {
            let state = stands(reader, failed);
            Ok(passed_outcome(framed, is_whole(state)))
        }
        Course::Ended(outcome) => Ok(outcome),
        Course::Wanting => Err(Mem),
    }
}

/// Returns the body of an answer whose head stands whole, and comes in pieces.
#[derive(Drop)]
pub struct Passage {
    alloc: Global,
    vars: Vars,
    framed: Framed,
    course: Course,
}

impl Model for Passage {
    ghost use Rattle.px_answers.specs.Passages.{IsSoundCourse, Passaging};

    ghost Value = { Passaging };

    ghost view = { λ p. record { vars = p.vars; framed = p.framed; course = p.course } };

    ghost invariant = { λ p. IsSoundCourse p.framed p.course };
}

impl Passage {
    /// The machine behind a head, which puts out what is settled by the head. `warm` are the filters
    /// that may be run. After `Mem`, `out` still begins with what it held.
    pub fn new(
        alloc: Global,
        warm: &mut WarmFilters<'_>,
        vars: Vars,
        framed: Framed,
        out: &mut Text,
    ) -> Result<Passage, Mem>
        ensures after { IfOk result (λ p. CourseAfter (record { filters = warm.old; vars = vars }) framed [] (added out.old out.new) p.course) }
        ensures vars { IfOk result (λ p. p.vars ≡ vars) }
        ensures framed { IfOk result (λ p. p.framed ≡ framed) }
        ensures grows { IfOk result (λ _. out.new ≡ out.old ++ added out.old out.new) }
        ensures kept { OnErr result (out.new ≡ out.old ++ added out.old out.new) }
        ensures same { warm.new ≡ warm.old }
        ensures room { IfOk result (λ p. room_of p.course < 2 ^ 64) }
    {
        let reader = BodyReader::new(alloc, framed.rule);
        let raw = Text::new(alloc);
        let course = settle(alloc, warm, &vars, &framed, raw, reader, out)?;
        Ok(Passage {
            alloc,
            vars,
            framed,
            course,
        })
    }

    /// Feeds a piece, and adds what it puts out. `warm` are the filters that may be run. After `Mem`
    /// the machine says `Mem` again, and `out` still begins with what it held.
    pub fn feed(
        &mut self,
        warm: &mut WarmFilters<'_>,
        piece: &[u8],
        out: &mut Text,
    ) -> Result<(), Mem>
        ensures after { OnOk result ((rest put : List ℕ) → CourseAfter (record { filters = warm.old; vars = self.old.vars }) self.old.framed rest put self.old.course
            → CourseAfter (record { filters = warm.old; vars = self.old.vars }) self.old.framed (rest ++ piece.now) (put ++ added out.old out.new) self.new.course) }
        ensures vars { self.new.vars ≡ self.old.vars }
        ensures framed { self.new.framed ≡ self.old.framed }
        ensures grows { OnOk result (out.new ≡ out.old ++ added out.old out.new) }
        ensures kept { OnErr result (out.new ≡ out.old ++ added out.old out.new) }
        ensures so_far { (w : Work) (rest put : List ℕ) → CourseAfter w self.old.framed rest put self.old.course → BeginsReturned w self.old.framed rest put }
        ensures done { OnOk result ((rest put : List ℕ) → CourseAfter (record { filters = warm.old; vars = self.old.vars }) self.old.framed rest put self.old.course
            → is_some (ended_of self.new.course) ≡ not (is_more (body_of self.old.framed.rule (rest ++ piece.now)).state)) }
        ensures lag { OnOk result ((rest put : List ℕ) → CourseAfter (record { filters = warm.old; vars = self.old.vars }) self.old.framed rest put self.old.course
            → length (returned_so_far self.old.framed (body_of self.old.framed.rule (rest ++ piece.now))) ≤ length (put ++ added out.old out.new)) }
        ensures repeats { ended_of self.old.course ≢ None → OnOk result ((self.new ≡ self.old) × (out.new ≡ out.old)) }
        ensures room { OnOk result (ended_of self.new.course ≡ None → room_of self.new.course + length piece.now ≤ room_of self.old.course) }
        ensures wanting { OnErr result (self.new.course ≡ Course.Wanting) }
        ensures again { self.old.course ≡ Course.Wanting → OnOk result ⊥ }
        ensures same { warm.new ≡ warm.old }
    {
        let course = replace(&mut self.course, Course::Wanting);
        self.course = advance(
            self.alloc,
            warm,
            &self.vars,
            &self.framed,
            course,
            piece,
            out,
        )?;
        Ok(())
    }

    /// Ends the bytes, and adds what it puts out. `failed` says that their reading failed. After `Mem`
    /// the machine says `Mem` again, and `out` still begins with what it held.
    pub fn end(
        &mut self,
        warm: &mut WarmFilters<'_>,
        failed: bool,
        out: &mut Text,
    ) -> Result<(), Mem>
        ensures ended { OnOk result ((rest put : List ℕ) → CourseAfter (record { filters = warm.old; vars = self.old.vars }) self.old.framed rest put self.old.course
            → EndsCourse (record { filters = warm.old; vars = self.old.vars }) self.old.framed rest failed (put ++ added out.old out.new) self.new.course) }
        ensures vars { self.new.vars ≡ self.old.vars }
        ensures framed { self.new.framed ≡ self.old.framed }
        ensures grows { OnOk result (out.new ≡ out.old ++ added out.old out.new) }
        ensures kept { OnErr result (out.new ≡ out.old ++ added out.old out.new) }
        ensures repeats { ended_of self.old.course ≢ None → OnOk result ((self.new ≡ self.old) × (out.new ≡ out.old)) }
        ensures wanting { OnErr result (self.new.course ≡ Course.Wanting) }
        ensures again { self.old.course ≡ Course.Wanting → OnOk result ⊥ }
        ensures same { warm.new ≡ warm.old }
    {
        let course = replace(&mut self.course, Course::Wanting);
        let outcome = finish(
            self.alloc,
            warm,
            &self.vars,
            &self.framed,
            course,
            failed,
            out,
        )?;
        self.course = Course::Ended(outcome);
        Ok(())
    }

    /// What came of the answer, once all that is returned of it was put out.
    pub fn ended(&self) -> Option<AnswerOutcome>
        ensures { result ≡ ended_of self.now.course }
    {
        match &self.course {
            Course::Holding { .. } => None,
            Course::Passing { .. } => None,
            Course::Ended(outcome) => Some(*outcome),
            Course::Wanting => None,
        }
    }

    /// How many raw bytes of a body that may still be filtered are held. With an unfinished line of at most 8,192 bytes they are
    /// all the bytes of the answer that are kept.
    pub fn held(&self) -> u64
        ensures raw { held_of self.now.course ≤ result + 8192 }
        ensures within { result ≤ self.now.framed.limit }
    {
        match &self.course {
            Course::Holding { raw, .. } => raw.len() as u64,
            Course::Passing { .. } => 0,
            Course::Ended(_) => 0,
            Course::Wanting => 0,
        }
    }
}
