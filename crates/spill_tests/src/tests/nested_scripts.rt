// Scripts with their answers, which `tools/spill_model.py` computed from the rules of asks and spills:
// spills within spills. `scripts.rt` says how they are read.
use crate::tests::scripts::Script;

/// Spills within spills.
pub const NESTED: &[Script] = &[
    Script {
        name: "a spill asks and the one that is chosen for it does not",
        max: 600,
        parts: [(0, 8, 8, 0), (50, 8, 8, 0), (60, 8, 8, 0), (0, 8, 8, 0)],
        fails: &[],
        script: "acquire:0:100:100=100/100.0.0.0 feed:0:a=0/100.0.0.0 acquire:1:300:300=300/100.300.0.0 \
            feed:1:b=0/100.300.0.0 acquire:2:120:120=120/100.300.120.0 feed:2:c=0/100.300.120.0 \
            acquire:3:80:80=80/100.300.120.80 feed:3:d=0/100.300.120.80 \
            acquire:0:250:250=250/350.0.120.0 drain:0=0/0.0.120.0 drain:1=0/0.0.120.0 \
            drain:2=0/0.0.0.0 drain:3=0/0.0.0.0",
        pool: "100=100 300=300 120=120 80=80 250=0 50=0 -80 50=50 -350 250=250 -350 60=60 -180",
        held: 0,
        runs: "0:2:a 1:1:b 2:3:c 3:0:d",
        created: 4,
    },
    Script {
        name: "three spills stand on one another",
        max: 600,
        parts: [(0, 8, 8, 0), (50, 8, 8, 0), (60, 8, 8, 0), (70, 8, 8, 0)],
        fails: &[],
        script: "acquire:0:100:100=100/100.0.0.0 feed:0:a=0/100.0.0.0 acquire:1:300:300=300/100.300.0.0 \
            feed:1:b=0/100.300.0.0 acquire:2:120:120=120/100.300.120.0 feed:2:c=0/100.300.120.0 \
            acquire:3:80:80=80/100.300.120.80 feed:3:d=0/100.300.120.80 \
            acquire:0:250:250=250/250.0.120.0 drain:0=0/250.0.120.0 drain:1=0/250.0.120.0 \
            drain:2=0/250.0.0.0 drain:3=0/250.0.0.0",
        pool: "100=100 300=300 120=120 80=80 250=0 50=0 70=0 -100 70=70 -150 50=50 -350 250=250 60=60 \
            -180",
        held: 250,
        runs: "0:0:a 1:2:b 2:3:c 3:1:d",
        created: 4,
    },
    Script {
        name: "four spills stand on one another",
        max: 600,
        parts: [(40, 8, 8, 0), (50, 8, 8, 0), (60, 8, 8, 0), (70, 8, 8, 0)],
        fails: &[],
        script: "acquire:0:100:100=100/100.0.0.0 feed:0:a=0/100.0.0.0 acquire:1:300:300=300/100.300.0.0 \
            feed:1:b=0/100.300.0.0 acquire:2:120:120=120/100.300.120.0 feed:2:c=0/100.300.120.0 \
            acquire:3:80:80=80/100.300.120.80 feed:3:d=0/100.300.120.80 \
            acquire:0:250:250=250/250.0.0.0 drain:0=0/250.0.0.0 drain:1=0/250.0.0.0 \
            drain:2=0/250.0.0.0 drain:3=0/250.0.0.0",
        pool: "100=100 300=300 120=120 80=80 250=0 50=0 70=0 40=0 60=0 -120 40=40 -140 70=70 -150 50=50 \
            -350 250=250",
        held: 250,
        runs: "0:1:a 1:3:b 2:0:c 3:2:d",
        created: 4,
    },
    Script {
        name: "an ask within a spill takes two spills",
        max: 600,
        parts: [(0, 8, 8, 0), (150, 8, 8, 0), (0, 8, 8, 0), (0, 8, 8, 0)],
        fails: &[],
        script: "acquire:0:100:100=100/100.0.0.0 feed:0:a=0/100.0.0.0 acquire:1:300:300=300/100.300.0.0 \
            feed:1:b=0/100.300.0.0 acquire:2:120:120=120/100.300.120.0 feed:2:c=0/100.300.120.0 \
            acquire:3:80:80=80/100.300.120.80 feed:3:d=0/100.300.120.80 \
            acquire:0:250:250=250/350.0.0.0 drain:0=0/0.0.0.0 drain:1=0/0.0.0.0 drain:2=0/0.0.0.0 \
            drain:3=0/0.0.0.0",
        pool: "100=100 300=300 120=120 80=80 250=0 150=0 -120 150=120 -80 30=30 -450 250=250 -350",
        held: 0,
        runs: "0:3:a 1:2:b 2:0:c 3:1:d",
        created: 4,
    },
    Script {
        name: "an ask within a spill is told of less than it asks",
        max: 600,
        parts: [(0, 8, 8, 0), (500, 8, 8, 0), (0, 8, 8, 0), (0, 8, 8, 0)],
        fails: &[],
        script: "acquire:0:100:100=100/100.0.0.0 feed:0:a=0/100.0.0.0 acquire:1:300:300=300/100.300.0.0 \
            feed:1:b=0/100.300.0.0 acquire:2:120:120=120/100.300.120.0 feed:2:c=0/100.300.120.0 \
            acquire:3:80:80=80/100.300.120.80 feed:3:d=0/100.300.120.80 \
            acquire:0:250:250=250/250.0.0.0 drain:0=0/250.0.0.0 drain:1=0/250.0.0.0 \
            drain:2=0/250.0.0.0 drain:3=0/250.0.0.0",
        pool: "100=100 300=300 120=120 80=80 250=0 500=0 -120 500=120 -100 380=100 -80 280=80 -600 \
            250=250",
        held: 250,
        runs: "0:1:a 1:3:b 2:0:c 3:2:d",
        created: 4,
    },
    Script {
        name: "a drain asks and another consumer spills",
        max: 600,
        parts: [(0, 8, 8, 0), (50, 8, 8, 0), (0, 8, 8, 0), (0, 8, 8, 0)],
        fails: &[],
        script: "acquire:0:100:100=100/100.0.0.0 feed:0:a=0/100.0.0.0 acquire:1:300:300=300/100.300.0.0 \
            feed:1:b=0/100.300.0.0 acquire:2:120:120=120/100.300.120.0 feed:2:c=0/100.300.120.0 \
            acquire:3:80:80=80/100.300.120.80 feed:3:d=0/100.300.120.80 drain:1=0/100.0.120.0 \
            drain:0=0/0.0.120.0 drain:1=0/0.0.120.0 drain:2=0/0.0.0.0 drain:3=0/0.0.0.0",
        pool: "100=100 300=300 120=120 80=80 50=0 -80 50=50 -350 -100 -120",
        held: 0,
        runs: "0:2:a 1:1:b 2:3:c 3:0:d",
        created: 4,
    },
    Script {
        name: "a spill that has what it asks spills nobody",
        max: 600,
        parts: [(0, 8, 8, 0), (50, 8, 8, 0), (0, 8, 8, 0), (0, 8, 8, 0)],
        fails: &[],
        script: "acquire:0:100:100=100/100.0.0.0 feed:0:a=0/100.0.0.0 acquire:1:300:300=300/100.300.0.0 \
            feed:1:b=0/100.300.0.0 acquire:2:100:100=100/100.300.100.0 feed:2:c=0/100.300.100.0 \
            drain:1=0/100.0.100.0 drain:0=0/0.0.100.0 drain:1=0/0.0.100.0 drain:2=0/0.0.0.0 \
            drain:3=0/0.0.0.0",
        pool: "100=100 300=300 100=100 50=50 -350 -100 -100",
        held: 0,
        runs: "0:1:a 1:0:b 2:2:c",
        created: 3,
    },
    Script {
        name: "equal uses within a spill",
        max: 600,
        parts: [(0, 8, 8, 0), (50, 8, 8, 0), (0, 8, 8, 0), (0, 8, 8, 0)],
        fails: &[],
        script: "acquire:0:100:100=100/100.0.0.0 feed:0:a=0/100.0.0.0 acquire:1:300:300=300/100.300.0.0 \
            feed:1:b=0/100.300.0.0 acquire:2:100:100=100/100.300.100.0 feed:2:c=0/100.300.100.0 \
            acquire:3:100:100=100/100.300.100.100 feed:3:d=0/100.300.100.100 \
            acquire:0:250:250=250/350.0.100.0 drain:0=0/0.0.100.0 drain:1=0/0.0.100.0 \
            drain:2=0/0.0.0.0 drain:3=0/0.0.0.0",
        pool: "100=100 300=300 100=100 100=100 250=0 50=0 -100 50=50 -350 250=250 -350 -100",
        held: 0,
        runs: "0:2:a 1:1:b 2:3:c 3:0:d",
        created: 4,
    },
    Script {
        name: "the asker of the outer ask is an ordinary candidate of the inner",
        max: 600,
        parts: [(0, 8, 8, 0), (0, 8, 8, 0), (90, 8, 8, 0), (0, 8, 8, 0)],
        fails: &[],
        script: "acquire:0:95:95=95/95.0.0.0 feed:0:a=0/95.0.0.0 acquire:1:205:205=205/95.205.0.0 \
            feed:1:b=0/95.205.0.0 acquire:2:300:300=300/95.205.300.0 feed:2:c=0/95.205.300.0 \
            acquire:0:280:280=280/280.205.0.0 drain:0=0/280.205.0.0 drain:1=0/280.0.0.0 \
            drain:2=0/280.0.0.0 drain:3=0/280.0.0.0",
        pool: "95=95 205=205 300=300 280=0 90=0 -95 90=90 -390 280=280 -205",
        held: 280,
        runs: "0:0:a 1:2:b 2:1:c",
        created: 3,
    },
    Script {
        name: "a refusal after spills within spills",
        max: 600,
        parts: [(40, 8, 8, 0), (50, 8, 8, 0), (0, 8, 8, 0), (0, 8, 8, 0)],
        fails: &[],
        script: "acquire:0:100:100=100/100.0.0.0 feed:0:a=0/100.0.0.0 acquire:1:300:300=300/100.300.0.0 \
            feed:1:b=0/100.300.0.0 acquire:2:200:200=200/100.300.200.0 feed:2:c=0/100.300.200.0 \
            acquire:3:601:700=no_room:601",
        pool: "100=100 300=300 200=200 700=0 50=0 40=0 -200 40=40 -140 50=50 -350 601=600 -600",
        held: 0,
        runs: "0:1:a 1:2:b 2:0:c",
        created: 3,
    },
];

/// The script of which one call of the disk fails.
pub const FAULT_SCRIPT: Script = Script {
    name: "call k alone fails",
    max: 600,
    parts: [(0, 8, 8, 0), (50, 2, 1, 16), (30, 1, 8, 0), (40, 8, 8, 8)],
    fails: &[],
    script: "acquire:0:100:100=100/100.0.0.0 feed:0:a=0/100.0.0.0 acquire:1:200:200=200/100.200.0.0 \
            feed:1:b=0/100.200.0.0 acquire:2:200:200=200/100.200.200.0 feed:2:c=0/100.200.200.0 \
            acquire:3:100:100=100/100.200.200.100 feed:3:d=0/100.200.200.100 \
            feed:1:c=0/100.200.200.100 feed:2:d=0/100.200.200.100 feed:3:a=0/100.200.200.100 \
            acquire:0:250:250=250/250.0.0.0 acquire:3:90:120=120/250.0.0.120 drain:0=0/250.0.0.120 \
            drain:1=0/250.0.0.120 drain:2=0/250.0.0.120 drain:3=0/250.0.0.120",
    pool: "100=100 200=200 200=200 100=100 250=0 30=0 40=0 -100 40=40 -73 30=30 -63 250=166 30=0 \
            40=0 50=0 -200 40=40 -107 30=30 -197 84=84 120=120",
    held: 370,
    runs: "0:0:a 1:3:bc 2:2:c 2:5:d 3:1:d 3:4:a",
    created: 6,
};

/// Where call 0 fails, call 1, and so on to its last: how many steps are answered before, what the task held at its
/// end, the runs, and how many files were made.
pub const FAULTS: &[(usize, u64, &str, u64)] = &[
    (11, 600, "", 0),
    (11, 600, "", 1),
    (11, 540, "0:0:a", 1),
    (11, 540, "0:0:a", 2),
    (11, 497, "0:0:a 3:1:d", 2),
    (11, 497, "0:0:a 3:1:d", 3),
    (11, 600, "0:0:a 2:2:c 3:1:d", 3),
    (11, 600, "0:0:a 2:2:c 3:1:d", 4),
    (11, 600, "0:0:a 2:2:c 3:1:d", 4),
    (11, 440, "0:0:a 1:3:bc 2:2:c 3:1:d", 4),
    (11, 440, "0:0:a 1:3:bc 2:2:c 3:1:d", 5),
    (11, 363, "0:0:a 1:3:bc 2:2:c 3:1:d 3:4:a", 5),
    (11, 363, "0:0:a 1:3:bc 2:2:c 3:1:d 3:4:a", 6),
];
