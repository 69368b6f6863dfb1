//! The verdicts that `verify` writes: each reason, by a proof that is broken there alone.

use super::commands::{Answer, SOUND, is_answered};
use super::helpers::joined;
use super::proofs::{DIAMOND, WORKED};
use std::alloc::Global;

/// The stream of a queue of one packet, up to the lemmas of its proof.
const STREAM_TO_LEMMAS: &str =
    r#"{"version":1,"colours":["req"],"net":[{"kind":"source","name":"S","out":"c0","colours":["req"]},
    {"kind":"queue","name":"Q","in":"c0","out":"c1","capacity":1},
    {"kind":"sink","name":"K","in":"c1"}],"proof":{"lemmas":["#;

/// From there to the goals.
const TO_GOALS: &str = r#"],"goals":["#;

/// From there to the nodes of the first goal.
const TO_NODES: &str = r#"],"goals":[{"goal":["Dead","c1","req"],"tree":["#;

/// The end, after a second goal, which is open.
const OPEN_GOAL: &str = r#"]},{"goal":["Dead","c0","req"],"tree":[{"open":true}]}]}}"#;

/// The nodes that refute the first goal.
const REFUTED: &str =
    r#"{"kids":1,"on":["Dead","c1","req"],"rule":"P0"},{"kids":0,"on":["Stuck","c1"],"rule":"S1"}"#;

/// Lemmas, the nodes of the first goal, and the verdict.
const VERDICTS: [(&str, &str, &str); 19] = [
    ("", REFUTED, "no goals.1.0 open\n"),
    ("", r#"{"open":true}"#, "no goals.0.0 open\n"),
    ("", r#"{"cite":0}"#, "no goals.0.0 cite\n"),
    (
        "",
        r#"{"kids":0,"on":["Stuck","c1"],"rule":"S1"}"#,
        "no goals.0.0 absent\n",
    ),
    (
        "",
        r#"{"kids":0,"on":["Dead","c1","req"],"rule":"S1"}"#,
        "no goals.0.0 rule\n",
    ),
    (
        "",
        r#"{"kids":0,"on":["Dead","c1","req"],"rule":"P0"}"#,
        "no goals.0.0 alternatives\n",
    ),
    (
        "",
        r#"{"clash":[["Idle","c1","req"]]}"#,
        "no goals.0.0 absent\n",
    ),
    (
        "",
        r#"{"clash":[["Dead","c1","req"]]}"#,
        "no goals.0.0 clash\n",
    ),
    ("", r#"{"eager":"c0"}"#, "no goals.0.0 absent\n"),
    ("", r#"{"sum":[["lemma",0,"1"]]}"#, "no goals.0.0 absent\n"),
    ("", r#"{"sum":[["cap","Q","-1"]]}"#, "no goals.0.0 sign\n"),
    (
        "",
        r#"{"sum":[["cap","Q","170141183460469231731687303715884105727"],["cap","Q","1"]]}"#,
        "no goals.0.0 overflow\n",
    ),
    (
        "",
        r#"{"sum":[["low","Q","req","1"]]}"#,
        "no goals.0.0 nonzero\n",
    ),
    ("", r#"{"sum":[]}"#, "no goals.0.0 weak\n"),
    (
        r#"{"constant":"0","rows":[],"scale":"0","terms":[]}"#,
        REFUTED,
        "no lemmas.0 scale\n",
    ),
    (
        r#"{"constant":"0","rows":[[1,"1"]],"scale":"1","terms":[]}"#,
        REFUTED,
        "no lemmas.0 lemma\n",
    ),
    (
        r#"{"constant":"0","rows":[],"scale":"1","terms":[["Q","req","1"]]}"#,
        REFUTED,
        "no lemmas.0 lemma\n",
    ),
    (
        r#"{"constant":"0","rows":[],"scale":"2","terms":[["Q","req","170141183460469231731687303715884105727"]]}"#,
        REFUTED,
        "no lemmas.0 overflow\n",
    ),
    (
        r#"{"constant":"0","rows":[],"scale":"1","terms":[]}"#,
        REFUTED,
        "no goals.1.0 open\n",
    ),
];

/// Goals up to the end of the document, and the verdict.
const OTHER_GOALS: [(&str, &str); 4] = [
    ("]}}", "no goals missing\n"),
    (
        r#"{"goal":["Stuck","c0"],"tree":[{"open":true}]}]}}"#,
        "no goals.0 goal\n",
    ),
    (
        r#"{"goal":["Dead","c1","req"],"tree":[{"open":true}]},{"goal":["Dead","c1","req"],"tree":[{"open":true}]}]}}"#,
        "no goals.1 goal\n",
    ),
    (
        r#"{"goal":["Dead","c1","req"],"tree":[{"open":true}]}]}}"#,
        "no goals missing\n",
    ),
];

/// What stands in the worked proof of the diamond, what stands there instead, and the verdict.
const EDITS: [(&str, &str, &str); 4] = [
    ("", "", "yes\n"),
    (
        r#"{"kids":2,"on":["Dead","c3","req"],"rule":"P4"},{"kids":1,"on":["Idle","c4","req"],"rule":"I2"},{"sum":[["lemma",0,"-1"],["path",["Has","Qd","req"],"1"],["path",["Lacks","Qt","req"],"1"]]},{"cite":0}]}"#,
        r#"{"kids":1,"on":["Dead","c3","req"],"rule":"P4"},{"kids":1,"on":["Idle","c4","req"],"rule":"I2"},{"sum":[["lemma",0,"-1"],["path",["Has","Qd","req"],"1"],["path",["Lacks","Qt","req"],"1"]]}]}"#,
        "no goals.1.1 alternatives\n",
    ),
    (
        r#"{"sum":[["lemma",0,"-1"],"#,
        r#"{"sum":[["cap","Qd","-1"],["lemma",0,"-1"],"#,
        "no goals.1.3 sign\n",
    ),
    (
        r#"["lemma",0,"-1"],["path",["Has","Qd","req"],"1"]"#,
        r#"["lemma",0,"170141183460469231731687303715884105727"],["path",["Has","Qd","req"],"1"]"#,
        "no goals.1.3 overflow\n",
    ),
];

/// Whether `verify` of the document that the parts are has this verdict.
fn is_said(alloc: Global, parts: [&str; 5], verdict: &str) -> bool {
    let answer = Answer {
        status: u8::from(verdict != "yes\n"),
        out: verdict,
        err: "",
    };
    joined(alloc, &parts).is_ok_and(|document| {
        is_answered(alloc, "verify", document.as_bytes(), SOUND, answer)
    })
}

/// The stream with these lemmas, and these nodes for its first goal.
fn is_said_of_nodes(alloc: Global, case: (&str, &str, &str)) -> bool {
    let parts = [STREAM_TO_LEMMAS, case.0, TO_NODES, case.1, OPEN_GOAL];
    is_said(alloc, parts, case.2)
}

fn is_said_of_goals(alloc: Global, case: (&str, &str)) -> bool {
    is_said(alloc, [STREAM_TO_LEMMAS, "", TO_GOALS, case.0, ""], case.1)
}

/// The diamond with its worked proof, in which the one text stands for the other.
fn is_said_of_edit(alloc: Global, case: (&str, &str, &str)) -> bool {
    let (Some(net), Some((before, behind))) = (DIAMOND.strip_suffix("}"), WORKED.split_once(case.0))
    else {
        return false;
    };
    joined(alloc, &[net, r#","proof":"#, before, case.1, behind]).is_ok_and(|document| {
        let answer = Answer {
            status: u8::from(case.2 != "yes\n"),
            out: case.2,
            err: "",
        };
        let mut whole = document;
        whole.push_bytes(b"}").is_ok()
            && is_answered(alloc, "verify", whole.as_bytes(), SOUND, answer)
    })
}

fn all_are_said(alloc: Global) -> bool {
    VERDICTS.iter().all(|case| is_said_of_nodes(alloc, *case))
        && OTHER_GOALS
            .iter()
            .all(|case| is_said_of_goals(alloc, *case))
        && EDITS.iter().all(|case| is_said_of_edit(alloc, *case))
}

#[test]
fn proofs_have_their_verdicts(rt: HostRuntime) {
    assert!(rt; all_are_said(rt.alloc()));
}
