//! The shape of a tape: from a JSON value to one of the three forms, with its rows as texts.

ghost use Rattle.std.specs.Prelude.{◌≡◌, ◌<◌, ◌^◌, IfOk, length, option_map};
ghost use Rattle.serde_json.specs.View.{view};
ghost use Rattle.xm_json.specs.Gives.{Gives};
ghost use Rattle.xm_json.specs.Lent.{lent_texts};
ghost use Rattle.xm_tape.specs.Inner.Views.{IsShort, draft_of};
ghost use Rattle.xm_tape.specs.Reading as spec;

use serde_json::Value;
use std::alloc::Global;
use xm_json::{
    PathFault, list_member, member_text, only, small_number_member, texts_in, texts_member,
};
use xm_model::Text;

/// A cycle has fewer rows.
const CYCLE_LIMIT: usize = 1 << 31;

/// A tape in one of its three forms, with its rows as texts.
#[derive(Drop)]
pub enum Draft<'v> {
    Written(Vec<&'v str>),
    Repeating {
        stem: Vec<&'v str>,
        cycle: Vec<&'v str>,
        times: u32,
    },
    Seeded {
        cycles: u32,
        seed: u64,
    },
}

#[tactic(auto, unfolding(crate::specs::Reading::written_in))]
fn written_in(alloc: Global, tape: &Value) -> Result<Draft<'_>, PathFault>
    ensures exact { Gives draft_of result (spec.written_in (view tape.now)) }
    ensures short { IfOk result (λ draft. IsShort (draft_of draft)) }
{
    let rows = texts_member(alloc, "tape", "rows", tape)?;
    only(alloc, "tape", &["rows"], tape)?;
    Ok(Draft::Written(rows))
}

/// The rows of the cycle, whose number is tested before they are.
#[tactic(auto, unfolding(crate::specs::Reading::cycle_in))]
fn cycle_in(alloc: Global, tape: &Value) -> Result<Vec<&str>, PathFault>
    ensures exact { Gives (λ texts. lent_texts texts.items) result (spec.cycle_in (view tape.now)) }
    ensures short { IfOk result (λ texts. length (lent_texts texts.items) < 2 ^ 31) }
{
    let items = list_member(alloc, "tape", "cycle", tape)?;
    if items.len() >= CYCLE_LIMIT {
        return Err(PathFault::Broken(member_text(alloc, "tape", "cycle")?));
    }
    texts_in(alloc, "tape.cycle", items)
}

#[tactic(auto, unfolding(crate::specs::Reading::repeating_in))]
fn repeating_in(alloc: Global, tape: &Value) -> Result<Draft<'_>, PathFault>
    ensures exact { Gives draft_of result (spec.repeating_in (view tape.now)) }
    ensures short { IfOk result (λ draft. IsShort (draft_of draft)) }
{
    let stem = texts_member(alloc, "tape", "stem", tape)?;
    let cycle = cycle_in(alloc, tape)?;
    let times = small_number_member(alloc, "tape", "times", u64::from(u32::MAX), tape)? as u32;
    only(alloc, "tape", &["cycle", "stem", "times"], tape)?;
    Ok(Draft::Repeating { stem, cycle, times })
}

#[tactic(auto, unfolding(crate::specs::Reading::seeded_in))]
fn seeded_in(alloc: Global, tape: &Value) -> Result<Draft<'_>, PathFault>
    ensures exact { Gives draft_of result (spec.seeded_in (view tape.now)) }
    ensures short { IfOk result (λ draft. IsShort (draft_of draft)) }
{
    let cycles = small_number_member(alloc, "tape", "cycles", u64::from(u32::MAX), tape)? as u32;
    let seed = small_number_member(alloc, "tape", "seed", u64::MAX, tape)?;
    only(alloc, "tape", &["cycles", "seed"], tape)?;
    Ok(Draft::Seeded { cycles, seed })
}

fn has(tape: &Value, key: &str) -> bool
    ensures { result ≡ spec.has key.now (view tape.now) }
{
    tape.get(key).is_some()
}

/// Which form is tested hangs on the members that there are.
#[tactic(auto, unfolding(crate::specs::Reading::form_in))]
fn form_in(alloc: Global, tape: &Value) -> Result<Draft<'_>, PathFault>
    ensures exact { Gives draft_of result (spec.form_in (view tape.now)) }
    ensures short { IfOk result (λ draft. IsShort (draft_of draft)) }
{
    if has(tape, "rows") {
        written_in(alloc, tape)
    } else if has(tape, "stem") || has(tape, "cycle") || has(tape, "times") {
        repeating_in(alloc, tape)
    } else {
        seeded_in(alloc, tape)
    }
}

/// The draft that the value is, or the first fault of its shape.
#[tactic(auto, unfolding(crate::specs::Reading::draft_in))]
pub fn draft_in(alloc: Global, value: Option<&Value>) -> Result<Draft<'_>, PathFault>
    ensures exact { Gives draft_of result (spec.draft_in (option_map (λ v. view v.now) value.entry)) }
    ensures short { IfOk result (λ draft. IsShort (draft_of draft)) }
{
    match value {
        Some(tape) if tape.is_object() => form_in(alloc, tape),
        _ => Err(PathFault::Broken(Text::from_bytes(alloc, b"tape")?)),
    }
}

impl Draft<'_> {
    /// How many cycles the run has.
    pub fn cycles(&self) -> u64
        requires { IsShort (draft_of self.now) }
        ensures { result ≡ spec.cycles_drafted (draft_of self.now) }
    {
        match self {
            Draft::Written(rows) => rows.len() as u64,
            Draft::Repeating { stem, cycle, times } => {
                stem.len() as u64 + u64::from(*times) * cycle.len() as u64
            }
            Draft::Seeded { cycles, .. } => u64::from(*cycles),
        }
    }
}
