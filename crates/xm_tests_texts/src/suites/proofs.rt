//! Proofs: the worked proof of a fork, two queues and a join is read, and broken ones tell their first break.

use super::helpers::joined;
use serde_json::Value;
use std::alloc::Global;
use xm_design::Design;
use xm_model::{Names, OutOfMemory};
use xm_netlist::read_document;
use xm_proof::Proof;
use xm_proof_reader::{Known, ProofFault, read_proof};

/// A fork whose outputs meet again behind two queues. No queue gets the second colour.
pub const DIAMOND: &str = r#"{"version":1,"colours":["req","ack"],"net":[
    {"kind":"source","name":"S","out":"c0","colours":["req"]},
    {"kind":"fork","name":"F","in":"c0","a":"c1","b":"c2"},
    {"kind":"queue","name":"Qd","in":"c1","out":"c3","capacity":2},
    {"kind":"queue","name":"Qt","in":"c2","out":"c4","capacity":2},
    {"kind":"join","name":"J","a":"c3","b":"c4","out":"c5","pass":"a"},
    {"kind":"sink","name":"K","in":"c5"}]}"#;

/// A proof that no channel of it jams.
pub const WORKED: &str = r#"{"lemmas":[
    {"constant":"0","rows":[[0,"1"],[1,"-1"],[2,"-1"],[3,"1"],[5,"-1"]],"scale":"1","terms":[["Qd","req","1"],["Qt","req","-1"]]}],"goals":[
    {"goal":["Dead","c5","req"],"tree":[{"kids":1,"on":["Dead","c5","req"],"rule":"P0"},{"kids":0,"on":["Stuck","c5"],"rule":"S1"}]},
    {"goal":["Dead","c3","req"],"tree":[{"kids":1,"on":["Dead","c3","req"],"rule":"O1"},{"kids":2,"on":["Dead","c3","req"],"rule":"P4"},{"kids":1,"on":["Idle","c4","req"],"rule":"I2"},{"sum":[["lemma",0,"-1"],["path",["Has","Qd","req"],"1"],["path",["Lacks","Qt","req"],"1"]]},{"cite":0}]},
    {"goal":["Dead","c1","req"],"tree":[{"kids":1,"on":["Dead","c1","req"],"rule":"P0"},{"kids":1,"on":["Stuck","c1"],"rule":"S2"},{"cite":1}]},
    {"goal":["Dead","c4","req"],"tree":[{"kids":1,"on":["Dead","c4","req"],"rule":"O1"},{"kids":2,"on":["Dead","c4","req"],"rule":"P4"},{"kids":1,"on":["Idle","c3","req"],"rule":"I2"},{"sum":[["lemma",0,"1"],["path",["Has","Qt","req"],"1"],["path",["Lacks","Qd","req"],"1"]]},{"cite":0}]},
    {"goal":["Dead","c2","req"],"tree":[{"kids":1,"on":["Dead","c2","req"],"rule":"P0"},{"kids":1,"on":["Stuck","c2"],"rule":"S2"},{"cite":3}]},
    {"goal":["Dead","c0","req"],"tree":[{"kids":1,"on":["Dead","c0","req"],"rule":"P0"},{"kids":2,"on":["Stuck","c0"],"rule":"S4"},{"kids":1,"on":["Stuck","c1"],"rule":"S2"},{"cite":1},{"kids":1,"on":["Stuck","c2"],"rule":"S2"},{"cite":3}]}]}"#;

/// Proofs of the diamond, and the path of the first break; `-` where there is none.
const BREAKS: [(&str, &str); 10] = [
    (
        r#"{"lemmas":[{"constant":"0","rows":[[0,"1"],[1,"-1"],[2,"-1"],[3,"1"],[5,"-1"]],"scale":"-170141183460469231731687303715884105727","terms":[["Qd","req","1"],["Qt","req","-1"]]}],"goals":[]}"#,
        "-",
    ),
    (r#"[]"#, "proof"),
    (r#"{"goals":[]}"#, "proof.lemmas"),
    (r#"{"goals":1,"lemmas":[1]}"#, "proof.lemmas.0"),
    (r#"{"goals":[],"lemmas":[],"x":1}"#, "proof"),
    (
        r#"{"lemmas":[],"goals":[{"goal":["Dead","c5","req"],"tree":[{"open":true},{"open":true}],"x":1}]}"#,
        "proof.goals.0.tree",
    ),
    (
        r#"{"lemmas":[],"goals":[{"goal":["Dead","c5","req"],"tree":[{"open":true}],"x":1}]}"#,
        "proof.goals.0",
    ),
    (
        r#"{"lemmas":[],"goals":[{"goal":["Stuck","c5","req"],"tree":[{"open":true}]}]}"#,
        "proof.goals.0.goal",
    ),
    (
        r#"{"lemmas":[],"goals":[{"goal":[1,"c5"],"tree":[{"open":true}]}]}"#,
        "proof.goals.0.goal",
    ),
    (
        r#"{"lemmas":[],"goals":[{"goal":["Dead","c5","blue"],"tree":[{"open":true}]}]}"#,
        "proof.goals.0.goal.2",
    ),
];

/// The second row and the second term of the lemma that holds of the diamond, and its scale; 2 to the 127 and its negation.
const ROW: &str = r#"[1,"-1"]"#;

const TERM: &str = r#"["Qt","req","-1"]"#;

const ONE: &str = r#""1""#;

const LARGE: &str = r#""170141183460469231731687303715884105728""#;

const LEAST: &str = r#""-170141183460469231731687303715884105728""#;

/// Lemmas by their second row, scale and second term, and the path in it of the first break of a proof that has it alone.
const LEMMAS: [(&str, &str, &str, &str); 14] = [
    (ROW, r#""-0""#, TERM, "scale"),
    (ROW, r#""01""#, TERM, "scale"),
    (ROW, r#""+1""#, TERM, "scale"),
    (ROW, "1", TERM, "scale"),
    (ROW, LARGE, TERM, "scale"),
    (ROW, LEAST, TERM, "scale"),
    (r#"[0,"-1"]"#, ONE, TERM, "rows.1"),
    (r#"[4294967296,"-1"]"#, ONE, TERM, "rows.1.0"),
    (r#"[1]"#, ONE, TERM, "rows.1"),
    (ROW, ONE, r#"["Qd","req","-1"]"#, "terms.1"),
    (ROW, ONE, r#"["Qt","req","0"]"#, "terms.1"),
    (ROW, ONE, r#"["F","req","1"]"#, "terms.1.0"),
    (ROW, ONE, r#"["Qt","ack","1"]"#, "terms.1.1"),
    (ROW, ONE, r#"["Qt","blue","1"]"#, "terms.1.1"),
];

/// Trees of a goal of the diamond, and the path of the first break of a proof of that goal alone.
const TREES: [(&str, &str); 15] = [
    ("", "proof.goals.0.tree"),
    (
        r#"{"kids":4294967295,"on":["Dead","c5","req"],"rule":"P0"}"#,
        "proof.goals.0.tree",
    ),
    (
        r#"{"kids":4294967296,"on":["Dead","c5","req"],"rule":"P0"}"#,
        "proof.goals.0.tree.0.kids",
    ),
    (r#"{"open":false}"#, "proof.goals.0.tree.0.open"),
    (r#"{"none":1}"#, "proof.goals.0.tree.0"),
    (r#"{"cite":0,"open":true}"#, "proof.goals.0.tree.0"),
    (r#"{"clash":[]}"#, "proof.goals.0.tree.0.clash"),
    (
        r#"{"clash":[["Full","c5"]]}"#,
        "proof.goals.0.tree.0.clash.0.1",
    ),
    (r#"{"eager":"Qd"}"#, "proof.goals.0.tree.0.eager"),
    (
        r#"{"sum":[["low","Qd","req"]]}"#,
        "proof.goals.0.tree.0.sum.0",
    ),
    (
        r#"{"sum":[["low","Qd","req","1"],["cap","c0","1"]]}"#,
        "proof.goals.0.tree.0.sum.1.1",
    ),
    (
        r#"{"kids":0,"on":["Stuck","c5"],"rule":"I1"}"#,
        "proof.goals.0.tree.0.rule",
    ),
    (
        r#"{"kids":0,"on":["Stuck","c5"],"rule":"I4"}"#,
        "proof.goals.0.tree.0.via",
    ),
    (
        r#"{"kids":0,"on":["Stuck","c5"],"rule":"S1","via":"req"}"#,
        "proof.goals.0.tree.0",
    ),
    (
        r#"{"kids":0,"on":["Stuck","c5"],"rule":"I4","via":"req"}"#,
        "-",
    ),
];

fn is_answer(answer: &Result<Proof, ProofFault>, expected: &[u8]) -> bool {
    match answer {
        Ok(_) => expected == b"-".as_slice(),
        Err(ProofFault::Form(path)) => path.as_bytes() == expected,
        Err(ProofFault::OutOfMemory) => false,
    }
}

fn read(
    alloc: Global,
    design: &Design,
    names: &Names,
    value: Option<&Value>,
) -> Result<Proof, ProofFault> {
    let known = Known::new(alloc, design, names)?;
    read_proof(alloc, &known, value)
}

fn answers(alloc: Global, design: &Design, names: &Names, text: &[u8], expected: &[u8]) -> bool {
    let value = Value::from_slice(alloc, text);
    value.is_ok_and(|value| { is_answer(&read(alloc, design, names, Some(&value)), expected) })
}

fn all_answer(alloc: Global, design: &Design, names: &Names) -> bool {
    BREAKS.iter().all(|(text, path)| answers(
        alloc,
        design,
        names,
        text.as_bytes(),
        path.as_bytes(),
    ))
}

fn lemma_answers(
    alloc: Global,
    design: &Design,
    names: &Names,
    case: &(&str, &str, &str, &str),
) -> Result<bool, OutOfMemory> {
    let text = joined(
        alloc,
        &[
            r#"{"lemmas":[{"constant":"0","rows":[[0,"1"],"#,
            case.0,
            r#",[2,"-1"],[3,"1"],[5,"-1"]],"scale":"#,
            case.1,
            r#","terms":[["Qd","req","1"],"#,
            case.2,
            r#"]}],"goals":[]}"#,
        ],
    )?;
    let path = joined(alloc, &["proof.lemmas.0.", case.3])?;
    Ok(answers(alloc, design, names, text.as_bytes(), path.as_bytes()))
}

fn lemmas_answer(alloc: Global, design: &Design, names: &Names) -> bool {
    LEMMAS.iter().all(|case| lemma_answers(alloc, design, names, case).is_ok_and(|is_so| is_so))
}

fn trees_answer(alloc: Global, design: &Design, names: &Names) -> bool {
    TREES.iter().all(|(tree, path)| {
        let goal = r#"{"lemmas":[],"goals":[{"goal":["Dead","c5","req"],"tree":["#;
        let text = joined(alloc, &[goal, tree, "]}]}"]);
        text.is_ok_and(|text| { answers(alloc, design, names, text.as_bytes(), path.as_bytes()) })
    })
}

fn is_worked(alloc: Global, design: &Design, names: &Names) -> bool {
    let value = Value::from_slice(alloc, WORKED.as_bytes());
    value.is_ok_and(|value| { has_worked(&read(alloc, design, names, Some(&value))) })
}

fn has_worked(answer: &Result<Proof, ProofFault>) -> bool {
    match answer {
        Ok(proof) => {
            proof.lemmas.len() == 1
                && proof.goals.len() == 6
                && proof.goals.as_slice()[1].tree.len() == 5
        }
        Err(_) => false,
    }
}

fn none_is_told(alloc: Global, design: &Design, names: &Names) -> bool {
    is_answer(&read(alloc, design, names, None), b"proof".as_slice())
}

/// The worked proof is read, the first break of each other is told, and so is a missing proof.
fn are_told(alloc: Global, design: &Design, names: &Names) -> bool {
    is_worked(alloc, design, names)
        && all_answer(alloc, design, names)
        && lemmas_answer(alloc, design, names)
        && trees_answer(alloc, design, names)
        && none_is_told(alloc, design, names)
}

fn are_told_of_diamond(alloc: Global) -> bool {
    match read_document(alloc, DIAMOND.as_bytes()) {
        Ok(document) => match Design::new(alloc, document.net, &document.allow) {
            Ok(design) => are_told(alloc, &design, &document.names),
            Err(_) => false,
        },
        Err(_) => false,
    }
}

#[test]
fn proofs_are_read_or_their_first_break_is_told(rt: HostRuntime) {
    assert!(rt; are_told_of_diamond(rt.alloc()));
}
