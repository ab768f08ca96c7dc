// Scripts with their answers, which `tools/spill_model.py` computed from the rules of asks and spills:
// who is chosen. `scripts.rt` says how they are read.
use crate::tests::scripts::Script;

/// Who is chosen, where no spill asks.
pub const CHOICES: &[Script] = &[
    Script {
        name: "the least use that is enough goes",
        max: 600,
        parts: [(0, 8, 8, 0), (0, 8, 8, 0), (0, 8, 8, 0), (0, 8, 8, 0)],
        fails: &[],
        script: "acquire:0:100:100=100/100.0.0.0 feed:0:a=0/100.0.0.0 acquire:1:250:250=250/100.250.0.0 \
            feed:1:b=0/100.250.0.0 acquire:2:200:200=200/100.250.200.0 feed:2:c=0/100.250.200.0 \
            acquire:3:150:150=150/0.250.200.150 drain:0=0/0.250.200.150 drain:1=0/0.0.200.150 \
            drain:2=0/0.0.0.150 drain:3=0/0.0.0.150",
        pool: "100=100 250=250 200=200 150=50 -100 100=100 -250 -200",
        held: 150,
        runs: "0:0:a 1:1:b 2:2:c",
        created: 3,
    },
    Script {
        name: "a use that is just enough goes",
        max: 600,
        parts: [(0, 8, 8, 0), (0, 8, 8, 0), (0, 8, 8, 0), (0, 8, 8, 0)],
        fails: &[],
        script: "acquire:0:150:150=150/150.0.0.0 feed:0:a=0/150.0.0.0 acquire:1:250:250=250/150.250.0.0 \
            feed:1:b=0/150.250.0.0 acquire:2:200:200=200/150.250.200.0 feed:2:c=0/150.250.200.0 \
            acquire:3:200:200=200/150.250.0.200 drain:0=0/0.250.0.200 drain:1=0/0.0.0.200 \
            drain:2=0/0.0.0.200 drain:3=0/0.0.0.200",
        pool: "150=150 250=250 200=200 200=0 -200 200=200 -150 -250",
        held: 200,
        runs: "0:1:a 1:2:b 2:0:c",
        created: 3,
    },
    Script {
        name: "the greatest use goes where none is enough",
        max: 600,
        parts: [(0, 8, 8, 0), (0, 8, 8, 0), (0, 8, 8, 0), (0, 8, 8, 0)],
        fails: &[],
        script: "acquire:0:150:150=150/150.0.0.0 feed:0:a=0/150.0.0.0 acquire:1:250:250=250/150.250.0.0 \
            feed:1:b=0/150.250.0.0 acquire:2:200:200=200/150.250.200.0 feed:2:c=0/150.250.200.0 \
            acquire:3:300:300=300/0.0.200.300 drain:0=0/0.0.200.300 drain:1=0/0.0.200.300 \
            drain:2=0/0.0.0.300 drain:3=0/0.0.0.300",
        pool: "150=150 250=250 200=200 300=0 -250 300=250 -150 50=50 -200",
        held: 300,
        runs: "0:1:a 1:0:b 2:2:c",
        created: 3,
    },
    Script {
        name: "of equal uses the higher number goes",
        max: 600,
        parts: [(0, 8, 8, 0), (0, 8, 8, 0), (0, 8, 8, 0), (0, 8, 8, 0)],
        fails: &[],
        script: "acquire:0:200:200=200/200.0.0.0 feed:0:a=0/200.0.0.0 acquire:1:200:200=200/200.200.0.0 \
            feed:1:b=0/200.200.0.0 acquire:2:200:200=200/200.200.200.0 feed:2:c=0/200.200.200.0 \
            acquire:3:150:150=150/200.200.0.150 drain:0=0/0.200.0.150 drain:1=0/0.0.0.150 \
            drain:2=0/0.0.0.150 drain:3=0/0.0.0.150",
        pool: "200=200 200=200 200=200 150=0 -200 150=150 -200 -200",
        held: 150,
        runs: "0:1:a 1:2:b 2:0:c",
        created: 3,
    },
    Script {
        name: "of equal uses that are too few the higher number goes",
        max: 600,
        parts: [(0, 8, 8, 0), (0, 8, 8, 0), (0, 8, 8, 0), (0, 8, 8, 0)],
        fails: &[],
        script: "acquire:0:200:200=200/200.0.0.0 feed:0:a=0/200.0.0.0 acquire:1:200:200=200/200.200.0.0 \
            feed:1:b=0/200.200.0.0 acquire:2:200:200=200/200.200.200.0 feed:2:c=0/200.200.200.0 \
            acquire:3:350:350=350/200.0.0.350 drain:0=0/0.0.0.350 drain:1=0/0.0.0.350 \
            drain:2=0/0.0.0.350 drain:3=0/0.0.0.350",
        pool: "200=200 200=200 200=200 350=0 -200 350=200 -200 150=150 -200",
        held: 350,
        runs: "0:2:a 1:1:b 2:0:c",
        created: 3,
    },
    Script {
        name: "the asker comes last",
        max: 600,
        parts: [(0, 8, 8, 0), (0, 8, 8, 0), (0, 8, 8, 0), (0, 8, 8, 0)],
        fails: &[],
        script: "acquire:0:300:300=300/300.0.0.0 feed:0:a=0/300.0.0.0 acquire:1:33:33=33/300.33.0.0 \
            feed:1:b=0/300.33.0.0 acquire:2:267:267=267/300.33.267.0 feed:2:c=0/300.33.267.0 \
            acquire:0:290:290=290/590.0.0.0 drain:0=0/0.0.0.0 drain:1=0/0.0.0.0 drain:2=0/0.0.0.0 \
            drain:3=0/0.0.0.0",
        pool: "300=300 33=33 267=267 290=0 -267 290=267 -33 23=23 -590",
        held: 0,
        runs: "0:2:a 1:1:b 2:0:c",
        created: 3,
    },
    Script {
        name: "the asker spills itself where nobody else is left",
        max: 600,
        parts: [(0, 8, 8, 0), (0, 8, 8, 0), (0, 8, 8, 0), (0, 8, 8, 0)],
        fails: &[],
        script: "acquire:0:300:300=300/300.0.0.0 feed:0:a=0/300.0.0.0 acquire:1:100:100=100/300.100.0.0 \
            feed:1:b=0/300.100.0.0 acquire:2:200:200=200/300.100.200.0 feed:2:c=0/300.100.200.0 \
            acquire:0:301:301=301/301.0.0.0 drain:0=0/301.0.0.0 drain:1=0/301.0.0.0 \
            drain:2=0/301.0.0.0 drain:3=0/301.0.0.0",
        pool: "300=300 100=100 200=200 301=0 -200 301=200 -100 101=100 -300 1=1",
        held: 301,
        runs: "0:2:a 1:1:b 2:0:c",
        created: 3,
    },
    Script {
        name: "the asker alone spills itself",
        max: 600,
        parts: [(0, 8, 8, 0), (0, 8, 8, 0), (0, 8, 8, 0), (0, 8, 8, 0)],
        fails: &[],
        script: "acquire:0:600:600=600/600.0.0.0 feed:0:a=0/600.0.0.0 acquire:0:600:600=600/600.0.0.0 \
            feed:0:b=0/600.0.0.0 drain:0=0/0.0.0.0 drain:1=0/0.0.0.0 drain:2=0/0.0.0.0 \
            drain:3=0/0.0.0.0",
        pool: "600=600 600=0 -600 600=600 -600",
        held: 0,
        runs: "0:0:a 0:1:b",
        created: 2,
    },
    Script {
        name: "a consumer without an entry keeps its bytes",
        max: 600,
        parts: [(0, 8, 8, 0), (0, 8, 8, 0), (0, 8, 8, 0), (0, 8, 8, 0)],
        fails: &[],
        script: "acquire:0:300:300=300/300.0.0.0 acquire:1:150:150=150/300.150.0.0 feed:1:b=0/300.150.0.0 \
            acquire:2:150:150=150/300.150.150.0 feed:2:c=0/300.150.150.0 \
            acquire:3:140:140=140/300.150.0.140 drain:0=0/300.150.0.140 drain:1=0/300.0.0.140 \
            drain:2=0/300.0.0.140 drain:3=0/300.0.0.140",
        pool: "300=300 150=150 150=150 140=0 -150 140=140 -150",
        held: 440,
        runs: "1:1:b 2:0:c",
        created: 2,
    },
];
