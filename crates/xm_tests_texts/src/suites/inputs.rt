//! The documents of the tests of the top call.

/// A source, a queue and a sink; a packet goes through.
pub const STREAM: &str =
    r#"{"version":1,"colours":["req"],"net":[{"kind":"source","name":"S","out":"c0","colours":["req"]},
    {"kind":"queue","name":"Q","in":"c0","out":"c1","capacity":1},
    {"kind":"sink","name":"K","in":"c1"}],"tape":{"rows":["01",".."]}}"#;

/// The same with a tape of two rounds and a part of a third.
pub const THREE_ROUNDS: &str =
    r#"{"version":1,"colours":["req"],"net":[{"kind":"source","name":"S","out":"c0","colours":["req"]},
    {"kind":"queue","name":"Q","in":"c0","out":"c1","capacity":1},
    {"kind":"sink","name":"K","in":"c1"}],"tape":{"cycles":40000,"seed":1}}"#;

/// Names of 14 to 32 letters. What stands before the colour of a move on the first channel has 16 bytes.
pub const LONG_NAMES: &str =
    r#"{"version":1,"colours":["sixteen_letters_","seventeen_letters","a_colour_of_thirty_two_letters__"],"net":[
    {"kind":"source","name":"S","out":"fourteen_chars","colours":["sixteen_letters_","seventeen_letters","a_colour_of_thirty_two_letters__"]},
    {"kind":"queue","name":"P","in":"fourteen_chars","out":"fifteen_letters","capacity":1},
    {"kind":"queue","name":"Q","in":"fifteen_letters","out":"sixteen_letters_","capacity":2},
    {"kind":"queue","name":"R","in":"sixteen_letters_","out":"a_channel_of_thirty_two_letters_","capacity":2},
    {"kind":"sink","name":"K","in":"a_channel_of_thirty_two_letters_"}],
    "tape":{"rows":["01","11","11","21","21",".1",".1"]}}"#;

/// The text of its run, made by a simulator in C++.
pub const LONG_NAMES_TEXT: &str = "0 fourteen_chars:sixteen_letters_\n\
    1 fifteen_letters:sixteen_letters_\n\
    2 fourteen_chars:seventeen_letters sixteen_letters_:sixteen_letters_\n\
    3 fifteen_letters:seventeen_letters a_channel_of_thirty_two_letters_:sixteen_letters_\n\
    4 fourteen_chars:a_colour_of_thirty_two_letters__ sixteen_letters_:seventeen_letters\n\
    5 fifteen_letters:a_colour_of_thirty_two_letters__ a_channel_of_thirty_two_letters_:seventeen_letters\n\
    6 sixteen_letters_:a_colour_of_thirty_two_letters__\n\
    sum fourteen_chars.sixteen_letters_ 1\n\
    sum fourteen_chars.seventeen_letters 1\n\
    sum fourteen_chars.a_colour_of_thirty_two_letters__ 1\n\
    sum fifteen_letters.sixteen_letters_ 1\n\
    sum fifteen_letters.seventeen_letters 1\n\
    sum fifteen_letters.a_colour_of_thirty_two_letters__ 1\n\
    sum sixteen_letters_.sixteen_letters_ 1\n\
    sum sixteen_letters_.seventeen_letters 1\n\
    sum sixteen_letters_.a_colour_of_thirty_two_letters__ 1\n\
    sum a_channel_of_thirty_two_letters_.sixteen_letters_ 1\n\
    sum a_channel_of_thirty_two_letters_.seventeen_letters 1\n\
    end 7\n";

/// A switch that sends its one colour to side b, and no tape.
pub const SWITCH: &str =
    r#"{"version":1,"colours":["req"],"net":[{"kind":"source","name":"S","out":"c0","colours":["req"]},
    {"kind":"switch","name":"W","in":"c0","a":"c1","b":"c2","to_a":[]},
    {"kind":"sink","name":"K","in":"c1"},{"kind":"sink","name":"L","in":"c2"}]}"#;

/// A fork straight into a join.
pub const LOOP: &str =
    r#"{"version":1,"colours":["req"],"net":[{"kind":"source","name":"S","out":"c0","colours":["req"]},
    {"kind":"fork","name":"F","in":"c0","a":"c1","b":"c2"},
    {"kind":"join","name":"J","a":"c1","b":"c2","out":"c3","pass":"a"},
    {"kind":"sink","name":"K","in":"c3"}],"tape":{"rows":[]}}"#;

/// JSON that is cut off.
pub const CUT: &str = r#"{"version":1,"net":[{"kind":"sou"#;

/// A primitive of another kind.
pub const UNKNOWN_KIND: &str =
    r#"{"version":1,"colours":["req"],"net":[{"kind":"pipe","name":"P"}],"tape":{"rows":[]}}"#;

/// Two sinks at one channel.
pub const TWO_TARGETS: &str =
    r#"{"version":1,"colours":["req"],"net":[{"kind":"source","name":"S","out":"c0","colours":["req"]},
    {"kind":"sink","name":"K1","in":"c0"},{"kind":"sink","name":"K2","in":"c0"}],"tape":{"rows":[]}}"#;

/// A channel that may have no colour.
pub const REFUSED_COLOUR: &str =
    r#"{"version":1,"colours":["req"],"net":[{"kind":"source","name":"S","out":"c0","colours":["req"]},
    {"kind":"queue","name":"Q","in":"c0","out":"c1","capacity":1},
    {"kind":"sink","name":"K","in":"c1"}],"allow":{"c1":[]},"tape":{"rows":["01"]}}"#;

/// The stream without a tape.
pub const NO_TAPE: &str =
    r#"{"version":1,"colours":["req"],"net":[{"kind":"source","name":"S","out":"c0","colours":["req"]},
    {"kind":"queue","name":"Q","in":"c0","out":"c1","capacity":1},
    {"kind":"sink","name":"K","in":"c1"}]}"#;

/// The stream with a tape of no cycles.
pub const NO_CYCLES: &str =
    r#"{"version":1,"colours":["req"],"net":[{"kind":"source","name":"S","out":"c0","colours":["req"]},
    {"kind":"queue","name":"Q","in":"c0","out":"c1","capacity":1},
    {"kind":"sink","name":"K","in":"c1"}],"tape":{"rows":[]}}"#;

/// The stream with a mark that no source takes in its second row.
pub const BAD_MARK: &str =
    r#"{"version":1,"colours":["req"],"net":[{"kind":"source","name":"S","out":"c0","colours":["req"]},
    {"kind":"queue","name":"Q","in":"c0","out":"c1","capacity":1},
    {"kind":"sink","name":"K","in":"c1"}],"tape":{"rows":["01","1."]}}"#;

/// A merge both of whose sides offer at reset.
pub const MERGE_BOTH_AT_FIRST: &str = r#"{"version":1,"colours":["x","y"],"net":[
    {"kind":"source","name":"SA","out":"c0","colours":["x"]},
    {"kind":"source","name":"SB","out":"c1","colours":["y"]},
    {"kind":"merge","name":"M","a":"c0","b":"c1","out":"c2"},{"kind":"sink","name":"K","in":"c2"}],
    "tape":{"rows":["001","001","001","001","001"]}}"#;

/// What the run of it prints.
pub const MERGE_BOTH_AT_FIRST_PRINTED: &str = concat!(
    "0 c0:x c2:x\n1 c1:y c2:y\n2 c0:x c2:x\n3 c1:y c2:y\n4 c0:x c2:x\nsum c0.x 3\n",
    "sum c1.y 2\nsum c2.x 3\nsum c2.y 2\nend 5\n"
);

/// Forty drawn rows for sources with several colours, in an order of their own.
pub const DRAWN_ROWS: &str = r#"{"version":1,"colours":["x","y","z","w"],"net":[
    {"kind":"source","name":"SA","out":"c0","colours":["w","x","z"]},
    {"kind":"source","name":"SB","out":"c1","colours":["y","x","z","w"],"mode":"free"},
    {"kind":"merge","name":"M","a":"c0","b":"c1","out":"c2"},
    {"kind":"queue","name":"Q","in":"c2","out":"c3","capacity":3},
    {"kind":"switch","name":"X","in":"c3","a":"c4","b":"c5","to_a":["x","y"]},
    {"kind":"sink","name":"KA","in":"c4"},{"kind":"sink","name":"KB","in":"c5","mode":"free"}],
    "tape":{"cycles":40,"seed":12345678901234567890}}"#;

/// What the run of it prints.
pub const DRAWN_ROWS_PRINTED: &str = concat!(
    "0 c0:w c2:w\n1 c1:y c2:y\n2 c0:z c2:z c3:w c5:w\n3 c1:x c2:x c3:y c4:y\n",
    "4 c0:w c2:w c3:z c5:z\n5 c1:x c2:x c3:x c4:x\n6 c0:x c2:x\n7\n8 c3:w c5:w\n",
    "9 c0:x c2:x c3:x c4:x\n10 c1:w c2:w\n11\n12\n13 c3:x c4:x\n14 c0:z c2:z\n",
    "15 c3:x c4:x\n16 c0:z c2:z c3:w c5:w\n17 c1:z c2:z\n18 c3:z c5:z\n",
    "19 c1:z c2:z c3:z c5:z\n20 c0:w c2:w\n21\n22 c3:z c5:z\n23 c0:x c2:x c3:z c5:z\n",
    "24 c1:w c2:w\n25 c3:w c5:w\n26 c0:w c2:w c3:x c4:x\n27 c1:w c2:w\n28 c3:w c5:w\n",
    "29 c0:x c2:x c3:w c5:w\n30 c0:w c2:w c3:w c5:w\n31 c1:x c2:x c3:x c4:x\n",
    "32 c0:z c2:z c3:w c5:w\n33 c1:z c2:z c3:x c4:x\n34 c0:w c2:w c3:z c5:z\n",
    "35 c1:z c2:z c3:z c5:z\n36 c0:x c2:x c3:w c5:w\n37 c1:w c2:w\n38\n39\nsum c0.x 5\n",
    "sum c0.z 4\nsum c0.w 6\nsum c1.x 3\nsum c1.y 1\nsum c1.z 4\nsum c1.w 4\nsum c2.x 8\n",
    "sum c2.y 1\nsum c2.z 8\nsum c2.w 10\nsum c3.x 7\nsum c3.y 1\nsum c3.z 7\n",
    "sum c3.w 9\nsum c4.x 7\nsum c4.y 1\nsum c5.z 7\nsum c5.w 9\nend 40\n"
);

/// All 36 marks of a source.
pub const ALL_MARKS: &str =
    r#"{"version":1,"colours":["k35","k34","k33","k32","k31","k30","k29","k28","k27","k26","k25","k24",
    "k23","k22","k21","k20","k19","k18","k17","k16","k15","k14","k13","k12","k11","k10","k9","k8",
    "k7","k6","k5","k4","k3","k2","k1","k0"],"net":[
    {"kind":"source","name":"S","out":"c0","colours":["k0","k1","k2","k3","k4","k5","k6","k7","k8",
    "k9","k10","k11","k12","k13","k14","k15","k16","k17","k18","k19","k20","k21","k22","k23","k24",
    "k25","k26","k27","k28","k29","k30","k31","k32","k33","k34","k35"]},
    {"kind":"sink","name":"K","in":"c0"}],
    "tape":{"rows":["01","11","21","31","41","51","61","71","81","91","a1","b1","c1","d1","e1","f1",
    "g1","h1","i1","j1","k1","l1","m1","n1","o1","p1","q1","r1","s1","t1","u1","v1","w1","x1","y1",
    "z1"]}}"#;

/// What the run of it prints.
pub const ALL_MARKS_PRINTED: &str = concat!(
    "0 c0:k0\n1 c0:k1\n2 c0:k2\n3 c0:k3\n4 c0:k4\n5 c0:k5\n6 c0:k6\n7 c0:k7\n8 c0:k8\n",
    "9 c0:k9\n10 c0:k10\n11 c0:k11\n12 c0:k12\n13 c0:k13\n14 c0:k14\n15 c0:k15\n",
    "16 c0:k16\n17 c0:k17\n18 c0:k18\n19 c0:k19\n20 c0:k20\n21 c0:k21\n22 c0:k22\n",
    "23 c0:k23\n24 c0:k24\n25 c0:k25\n26 c0:k26\n27 c0:k27\n28 c0:k28\n29 c0:k29\n",
    "30 c0:k30\n31 c0:k31\n32 c0:k32\n33 c0:k33\n34 c0:k34\n35 c0:k35\nsum c0.k35 1\n",
    "sum c0.k34 1\nsum c0.k33 1\nsum c0.k32 1\nsum c0.k31 1\nsum c0.k30 1\nsum c0.k29 1\n",
    "sum c0.k28 1\nsum c0.k27 1\nsum c0.k26 1\nsum c0.k25 1\nsum c0.k24 1\nsum c0.k23 1\n",
    "sum c0.k22 1\nsum c0.k21 1\nsum c0.k20 1\nsum c0.k19 1\nsum c0.k18 1\nsum c0.k17 1\n",
    "sum c0.k16 1\nsum c0.k15 1\nsum c0.k14 1\nsum c0.k13 1\nsum c0.k12 1\nsum c0.k11 1\n",
    "sum c0.k10 1\nsum c0.k9 1\nsum c0.k8 1\nsum c0.k7 1\nsum c0.k6 1\nsum c0.k5 1\n",
    "sum c0.k4 1\nsum c0.k3 1\nsum c0.k2 1\nsum c0.k1 1\nsum c0.k0 1\nend 36\n"
);

/// A fork, a queue on each of its sides, and a join; a packet goes through.
pub const FORK_JOIN: &str =
    r#"{"version":1,"colours":["req"],"net":[{"kind":"source","name":"S","out":"c0","colours":["req"]},
    {"kind":"fork","name":"F","in":"c0","a":"c1","b":"c2"},
    {"kind":"queue","name":"Qd","in":"c1","out":"c3","capacity":2},
    {"kind":"queue","name":"Qt","in":"c2","out":"c4","capacity":2},
    {"kind":"join","name":"J","a":"c3","b":"c4","out":"c5","pass":"a"},
    {"kind":"sink","name":"K","in":"c5"}],"tape":{"rows":["01",".."]}}"#;

/// Four queues in a row, up to the tape.
pub const FOUR_QUEUES: &str =
    r#"{"version":1,"colours":["req"],"net":[{"kind":"source","name":"S","out":"c0","colours":["req"]},
    {"kind":"queue","name":"Q0","in":"c0","out":"c1","capacity":2},
    {"kind":"queue","name":"Q1","in":"c1","out":"c2","capacity":2},
    {"kind":"queue","name":"Q2","in":"c2","out":"c3","capacity":2},
    {"kind":"queue","name":"Q3","in":"c3","out":"c4","capacity":2},
    {"kind":"sink","name":"K","in":"c4"}],"tape":"#;

/// The end of a document, with a tape of 100 cycles.
pub const CYCLES_100: &str = r#"{"cycles":100,"seed":5}}"#;

/// The same with 2,500 cycles.
pub const CYCLES_2500: &str = r#"{"cycles":2500,"seed":5}}"#;

/// Two credits that go round, and packets that go with one each.
pub const CREDITS: &str = r#"{"version":2,"colours":["req"],"net":[
    {"kind":"source","name":"S","out":"c0","colours":["req"],"mode":"eager"},
    {"kind":"join","name":"J","a":"c0","b":"c5","out":"c1","pass":"a"},
    {"kind":"queue","name":"Qd","in":"c1","out":"c2","capacity":2},
    {"kind":"fork","name":"F","in":"c2","a":"c3","b":"c4"},
    {"kind":"sink","name":"K","in":"c3"},
    {"kind":"queue","name":"Qc","in":"c4","out":"c5","capacity":2,"initial":["req","req"]}]}"#;

/// A queue that feeds itself, with one packet.
pub const SELF_FED: &str = r#"{"version":2,"colours":["x"],"net":[
    {"kind":"queue","name":"Q","in":"c0","out":"c0","capacity":2,"initial":["x"]}]}"#;

/// A queue whose first packet has a colour that no source sends.
pub const UNSENT: &str = r#"{"version":2,"colours":["x","y"],"net":[
    {"kind":"source","name":"S","out":"c0","colours":["x"]},
    {"kind":"queue","name":"Q","in":"c0","out":"c1","capacity":2,"initial":["y"]},
    {"kind":"sink","name":"K","in":"c1"}]}"#;

/// A fork to two sinks, one of which keeps no readiness, with an empty proof.
pub const FREE_SINK: &str =
    r#"{"version":1,"colours":["req"],"net":[{"kind":"source","name":"S","out":"c0","colours":["req"]},
    {"kind":"fork","name":"F","in":"c0","a":"c1","b":"c2"},{"kind":"sink","name":"K","in":"c1"},
    {"kind":"sink","name":"L","in":"c2","mode":"free"}],"proof":{"goals":[],"lemmas":[]}}"#;
