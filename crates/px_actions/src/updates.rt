// Updates of action sets, and the words that they are read from.
ghost use Rattle.std.specs.Prelude.{◌≡◌, ◌≢◌, IfErr, IfOk, IsTrue, false, Ok, Err, Some, option_copied};
ghost use Rattle.std.specs.List.{before_first};
ghost use Rattle.px_actions.specs.Shapes.{fits};
ghost use Rattle.px_actions.specs.Updates.{is_opening_brace, behind_brace, parameter_of, has_parameter, flag_change, single_change, multi_change, shape_change, kind_update, signed_update, word_update};

use crate::braces::is_closed;
use crate::changes::Change;
use crate::faults::ActionFault;
use crate::kinds::{Kind, Rule, Shape};
use crate::rules::keeps;
use px_base::{Mem, Text, place, trim};
use std::alloc::Global;

/// One update of an action set: a kind of action and what is done to it. The change is of the kind's shape, and its
/// parameter keeps the kind's rule.
#[derive(Drop)]
pub struct Update {
    pub kind: Kind,
    pub change: Change,
    ghost kept: { IsTrue (fits kind change) },
}

/// The sign of a word.
#[derive(Clone, Copy, Debug, PartialEq, Eq)]
pub enum Sign {
    Plus,
    Minus,
}

impl Update {
    /// The update that a word of a section stands for: a sign, a name and optionally a parameter in braces.
    pub fn read(alloc: Global, word: &str) -> Result<Update, ActionFault>
        ensures update { IfOk result (λ u. word_update word.now ≡ Ok (u.kind, u.change)) }
        ensures fault { IfErr result (λ f. f ≢ ActionFault.Mem → word_update word.now ≡ Err f) }
    {
        Update::read_bytes(alloc, word.as_bytes())
    }

    /// The same of a word that is given by its bytes. A parameter that isn't UTF-8 is a bad one.
    #[tactic(auto, unfolding(crate::specs::Updates::word_update))]
    pub fn read_bytes(alloc: Global, word: &[u8]) -> Result<Update, ActionFault>
        ensures update { IfOk result (λ u. word_update word.now ≡ Ok (u.kind, u.change)) }
        ensures fault { IfErr result (λ f. f ≢ ActionFault.Mem → word_update word.now ≡ Err f) }
    {
        match word.split_first() {
            Some((b'+', text)) => read_signed(alloc, Sign::Plus, text),
            Some((b'-', text)) => read_signed(alloc, Sign::Minus, text),
            Some(_) => Err(ActionFault::UnknownAction),
            None => Err(ActionFault::UnknownAction),
        }
    }

    /// An equal update.
    pub fn copy(&self, alloc: Global) -> Result<Update, Mem>
        ensures kind { IfOk result (λ u. u.kind ≡ self.now.kind) }
        ensures change { IfOk result (λ u. u.change ≡ self.now.change) }
    {
        Ok(Update {
            kind: self.kind,
            change: self.change.copy(alloc)?,
        })
    }
}

/// The update of what stands behind a sign.
fn read_signed(alloc: Global, sign: Sign, text: &[u8]) -> Result<Update, ActionFault>
    ensures update { IfOk result (λ u. signed_update sign text.now ≡ Ok (u.kind, u.change)) }
    ensures fault { IfErr result (λ f. f ≢ ActionFault.Mem → signed_update sign text.now ≡ Err f) }
{
    let (name, behind) = cut_at_brace(text);
    match Kind::by_bytes(name) {
        Some(kind) => read_change(alloc, kind, sign, behind),
        None => Err(ActionFault::UnknownAction),
    }
}

/// The name before the first open brace, and what stands behind that brace if there is one.
fn cut_at_brace(text: &[u8]) -> (&[u8], Option<&[u8]>)
    ensures name { result.0.now ≡ before_first is_opening_brace text.now }
    ensures behind { option_copied result.1 ≡ behind_brace text.now }
{
    match place(text, b'{') {
        Some(at) => (&text[..at], Some(&text[at + 1..])),
        None => (text, None),
    }
}

/// The update of a kind, by a sign and what stands behind an open brace.
#[tactic(auto, using(crate::proofs::UpdateLemmas::changes_fit), unfolding(crate::specs::Shapes::fits))]
fn read_change(
    alloc: Global,
    kind: Kind,
    sign: Sign,
    behind: Option<&[u8]>,
) -> Result<Update, ActionFault>
    ensures update { IfOk result (λ u. kind_update sign (option_copied behind.entry) (Some kind) ≡ Ok (u.kind, u.change)) }
    ensures fault { IfErr result (λ f. f ≢ ActionFault.Mem → kind_update sign (option_copied behind.entry) (Some kind) ≡ Err f) }
{
    let change = shape_change(alloc, kind.shape(), kind.rule(), sign, behind)?;
    Ok(Update { kind, change })
}

fn shape_change(
    alloc: Global,
    shape: Shape,
    rule: Rule,
    sign: Sign,
    behind: Option<&[u8]>,
) -> Result<Change, ActionFault>
    ensures change { IfOk result (λ c. shape_change shape rule sign (option_copied behind.entry) ≡ Ok c) }
    ensures fault { IfErr result (λ f. f ≢ ActionFault.Mem → shape_change shape rule sign (option_copied behind.entry) ≡ Err f) }
{
    match shape {
        Shape::Flag => flag_change(sign, behind),
        Shape::Single => single_change(alloc, rule, sign, behind),
        Shape::Multi => multi_change(alloc, rule, sign, behind),
    }
}

fn flag_change(sign: Sign, behind: Option<&[u8]>) -> Result<Change, ActionFault>
    ensures { result ≡ flag_change sign (option_copied behind.entry) }
{
    match (sign, behind) {
        (_, Some(_)) => Err(ActionFault::ParameterUnwanted),
        (Sign::Plus, None) => Ok(Change::On),
        (Sign::Minus, None) => Ok(Change::Off),
    }
}

fn single_change(
    alloc: Global,
    rule: Rule,
    sign: Sign,
    behind: Option<&[u8]>,
) -> Result<Change, ActionFault>
    ensures change { IfOk result (λ c. single_change rule sign (option_copied behind.entry) ≡ Ok c) }
    ensures fault { IfErr result (λ f. f ≢ ActionFault.Mem → single_change rule sign (option_copied behind.entry) ≡ Err f) }
{
    match (sign, behind) {
        (Sign::Minus, Some(_)) => Err(ActionFault::ParameterUnwanted),
        (Sign::Minus, None) => Ok(Change::Off),
        (Sign::Plus, None) => Err(ActionFault::ParameterWanted),
        (Sign::Plus, Some(behind)) => Ok(Change::Set(read_parameter(alloc, rule, behind)?)),
    }
}

fn multi_change(
    alloc: Global,
    rule: Rule,
    sign: Sign,
    behind: Option<&[u8]>,
) -> Result<Change, ActionFault>
    ensures change { IfOk result (λ c. multi_change rule sign (option_copied behind.entry) ≡ Ok c) }
    ensures fault { IfErr result (λ f. f ≢ ActionFault.Mem → multi_change rule sign (option_copied behind.entry) ≡ Err f) }
{
    match (sign, behind) {
        (Sign::Plus, None) => Err(ActionFault::ParameterWanted),
        (Sign::Minus, None) => Ok(Change::Clear),
        (Sign::Plus, Some(behind)) => Ok(Change::Add(read_parameter(alloc, rule, behind)?)),
        (Sign::Minus, Some(behind)) => Ok(Change::Remove(read_parameter(alloc, rule, behind)?)),
    }
}

/// The parameter of what stands behind its open brace.
#[tactic(auto, unfolding(crate::specs::Updates::has_parameter))]
fn read_parameter(alloc: Global, rule: Rule, behind: &[u8]) -> Result<Text, ActionFault>
    ensures same { IfOk result (λ p. p ≡ parameter_of behind.now) }
    ensures kept { IfOk result (λ p. IsTrue (has_parameter rule behind.now)) }
    ensures fault { IfErr result (λ f. f ≢ ActionFault.Mem → (f ≡ ActionFault.BadParameter) × (has_parameter rule behind.now ≡ false)) }
{
    if !is_closed(behind) {
        return Err(ActionFault::BadParameter);
    }
    let parameter = trim(&behind[..behind.len() - 1]);
    if !keeps(alloc, rule, parameter)? {
        return Err(ActionFault::BadParameter);
    }
    Ok(Text::from_bytes(alloc, parameter)?)
}
