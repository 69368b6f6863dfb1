//! The text of a verdict on a proof.

ghost use Rattle.std.specs.Prelude.{◌≡◌, ◌++◌, IfOk, OnOk};
ghost use Rattle.xm_report.specs.Verdict as spec;
ghost use Rattle.xm_report.specs.Verdict.{place_text, reason_text};

use crate::pieces::push_count;
use std::alloc::Global;
use xm_model::{OutOfMemory, Text};
use xm_proof::{ProofPath, Reason, Verdict};

fn push_place(text: &mut Text, at: ProofPath) -> Result<(), OutOfMemory>
    ensures { OnOk result (text.new.items ≡ text.old.items ++ place_text at) }
{
    match at {
        ProofPath::Lemma(k) => {
            text.push_bytes(b"lemmas.")?;
            push_count(text, u64::from(k))
        }
        ProofPath::Goals => text.push_bytes(b"goals"),
        ProofPath::Goal(k) => {
            text.push_bytes(b"goals.")?;
            push_count(text, u64::from(k))
        }
        ProofPath::Node(k, i) => {
            text.push_bytes(b"goals.")?;
            push_count(text, u64::from(k))?;
            text.push_bytes(b".")?;
            push_count(text, u64::from(i))
        }
    }
}

fn word_of(why: Reason) -> &'static [u8]
    ensures { result.now ≡ reason_text why }
{
    match why {
        Reason::Scale => b"scale",
        Reason::Lemma => b"lemma",
        Reason::Overflow => b"overflow",
        Reason::Goal => b"goal",
        Reason::Missing => b"missing",
        Reason::Absent => b"absent",
        Reason::Rule => b"rule",
        Reason::Alternatives => b"alternatives",
        Reason::Clash => b"clash",
        Reason::Sign => b"sign",
        Reason::Nonzero => b"nonzero",
        Reason::Weak => b"weak",
        Reason::Cite => b"cite",
        Reason::Open => b"open",
    }
}

fn break_text(alloc: Global, at: ProofPath, why: Reason) -> Result<Text, OutOfMemory>
    ensures { IfOk result (λ text. text.items ≡ spec.verdict_text (Verdict.No at why)) }
{
    let mut text = Text::from_bytes(alloc, b"no ")?;
    push_place(&mut text, at)?;
    text.push_bytes(b" ")?;
    text.push_bytes(word_of(why))?;
    text.push_bytes(b"\n")?;
    Ok(text)
}

/// The text of the verdict: `yes`, or `no` with the place of the proof's first break and the reason.
pub fn verdict_text(alloc: Global, verdict: Verdict) -> Result<Text, OutOfMemory>
    ensures { IfOk result (λ text. text.items ≡ spec.verdict_text verdict) }
{
    match verdict {
        Verdict::Yes => Text::from_bytes(alloc, b"yes\n"),
        Verdict::No(at, why) => break_text(alloc, at, why),
    }
}
