// Scripts with their answers, which `tools/spill_model.py` computed from the rules of asks and spills:
// spills of a part of the entries. `scripts.rt` says how they are read.
use crate::tests::scripts::Script;

/// Spills that write a part of the entries, and in several pages.
pub const PARTS: &[Script] = &[
    Script {
        name: "the same consumer is chosen again",
        max: 300,
        parts: [(0, 8, 8, 0), (0, 1, 8, 0), (0, 8, 8, 0), (0, 8, 8, 0)],
        fails: &[],
        script: "acquire:1:300:300=300/0.300.0.0 feed:1:b=0/0.300.0.0 feed:1:c=0/0.300.0.0 \
            feed:1:d=0/0.300.0.0 acquire:0:60:60=60/60.234.0.0 drain:0=0/60.234.0.0 \
            drain:1=0/60.0.0.0 drain:2=0/60.0.0.0 drain:3=0/60.0.0.0",
        pool: "300=300 60=0 -33 60=33 -33 27=27 -234",
        held: 60,
        runs: "1:0:b 1:1:c 1:2:d",
        created: 3,
    },
    Script {
        name: "the same consumer is chosen until it is empty",
        max: 300,
        parts: [(0, 8, 8, 0), (0, 1, 8, 0), (0, 8, 8, 0), (0, 8, 8, 0)],
        fails: &[],
        script: "acquire:1:300:300=300/0.300.0.0 feed:1:b=0/0.300.0.0 feed:1:c=0/0.300.0.0 \
            feed:1:d=0/0.300.0.0 acquire:0:100:100=100/100.0.0.0 drain:0=0/100.0.0.0 \
            drain:1=0/100.0.0.0 drain:2=0/100.0.0.0 drain:3=0/100.0.0.0",
        pool: "300=300 100=0 -33 100=33 -33 67=33 -234 34=34",
        held: 100,
        runs: "1:0:b 1:1:c 1:2:d",
        created: 3,
    },
    Script {
        name: "a part goes and then another consumer",
        max: 300,
        parts: [(0, 8, 8, 0), (0, 1, 8, 0), (0, 8, 8, 0), (0, 8, 8, 0)],
        fails: &[],
        script: "acquire:1:200:200=200/0.200.0.0 feed:1:b=0/0.200.0.0 acquire:2:100:100=100/0.200.100.0 \
            feed:2:c=0/0.200.100.0 feed:1:c=0/0.200.100.0 feed:1:d=0/0.200.100.0 \
            acquire:0:101:101=101/101.167.0.0 drain:0=0/101.167.0.0 drain:1=0/101.0.0.0 \
            drain:2=0/101.0.0.0 drain:3=0/101.0.0.0",
        pool: "200=200 100=100 101=0 -33 101=33 -100 68=68 -33 -134",
        held: 101,
        runs: "1:0:b 1:2:c 1:3:d 2:1:c",
        created: 4,
    },
    Script {
        name: "a front that ascends is a run",
        max: 300,
        parts: [(0, 8, 8, 0), (0, 8, 8, 0), (0, 8, 8, 0), (0, 8, 8, 0)],
        fails: &[],
        script: "acquire:0:300:300=300/300.0.0.0 feed:0:b=0/300.0.0.0 feed:0:d=0/300.0.0.0 \
            feed:0:a=0/300.0.0.0 feed:0:c=0/300.0.0.0 feed:0:c=0/300.0.0.0 \
            acquire:1:20:20=20/234.20.0.0 drain:0=0/0.20.0.0 drain:1=0/0.20.0.0 drain:2=0/0.20.0.0 \
            drain:3=0/0.20.0.0",
        pool: "300=300 20=0 -66 20=20 -234",
        held: 20,
        runs: "0:0:bd 0:1:acc",
        created: 2,
    },
    Script {
        name: "a run is written in pages of one entry",
        max: 300,
        parts: [(0, 8, 1, 0), (0, 8, 1, 0), (0, 8, 1, 0), (0, 8, 1, 0)],
        fails: &[],
        script: "acquire:0:300:300=300/300.0.0.0 feed:0:a=0/300.0.0.0 feed:0:b=0/300.0.0.0 \
            feed:0:c=0/300.0.0.0 acquire:1:20:20=20/0.20.0.0 drain:0=0/0.20.0.0 drain:1=0/0.20.0.0 \
            drain:2=0/0.20.0.0 drain:3=0/0.20.0.0",
        pool: "300=300 20=0 -300 20=20",
        held: 20,
        runs: "0:0:abc",
        created: 1,
    },
    Script {
        name: "the second page fails",
        max: 300,
        parts: [(0, 8, 1, 0), (0, 8, 1, 0), (0, 8, 1, 0), (0, 8, 1, 0)],
        fails: &[2],
        script: "acquire:0:300:300=300/300.0.0.0 feed:0:a=0/300.0.0.0 feed:0:b=0/300.0.0.0 \
            feed:0:c=0/300.0.0.0 acquire:1:20:20=disk_fault",
        pool: "300=300 20=0",
        held: 300,
        runs: "",
        created: 1,
    },
    Script {
        name: "bytes are given back early",
        max: 300,
        parts: [(0, 1, 8, 16), (0, 1, 8, 16), (0, 1, 8, 16), (0, 1, 8, 16)],
        fails: &[],
        script: "acquire:0:300:300=300/300.0.0.0 feed:0:a=0/300.0.0.0 feed:0:b=0/300.0.0.0 \
            feed:0:c=0/300.0.0.0 acquire:1:20:20=20/267.20.0.0 acquire:2:40:40=40/234.20.40.0 \
            drain:0=0/0.20.40.0 drain:1=0/0.20.40.0 drain:2=0/0.20.40.0 drain:3=0/0.20.40.0",
        pool: "300=300 20=0 -33 20=20 40=13 -33 27=27 -234",
        held: 60,
        runs: "0:0:a 0:1:b 0:2:c",
        created: 3,
    },
    Script {
        name: "bytes are not given back early without the room",
        max: 300,
        parts: [(0, 1, 8, 16), (0, 1, 8, 16), (0, 1, 8, 16), (0, 1, 8, 16)],
        fails: &[],
        script: "acquire:0:114:114=114/114.0.0.0 feed:0:a=0/114.0.0.0 feed:0:b=0/114.0.0.0 \
            feed:0:c=0/114.0.0.0 acquire:1:186:186=186/114.186.0.0 feed:1:d=0/114.186.0.0 \
            acquire:2:20:20=20/81.186.20.0 acquire:2:40:40=40/48.186.60.0 drain:0=0/0.186.60.0 \
            drain:1=0/0.0.60.0 drain:2=0/0.0.60.0 drain:3=0/0.0.60.0",
        pool: "114=114 186=186 20=0 -33 20=20 40=13 -33 27=27 -48 -186",
        held: 60,
        runs: "0:0:a 0:1:b 0:2:c 1:3:d",
        created: 4,
    },
    Script {
        name: "bytes are given back early and asked for",
        max: 300,
        parts: [(50, 2, 1, 16), (0, 1, 1, 7), (0, 8, 8, 0), (0, 8, 8, 0)],
        fails: &[],
        script: "acquire:0:180:180=180/180.0.0.0 feed:0:a=0/180.0.0.0 acquire:1:120:120=120/180.120.0.0 \
            feed:1:b=0/180.120.0.0 feed:0:b=0/180.120.0.0 feed:0:c=0/180.120.0.0 \
            feed:1:c=0/180.120.0.0 acquire:2:60:60=60/180.0.60.0 drain:0=0/0.0.60.0 \
            drain:1=0/0.0.60.0 drain:2=0/0.0.60.0 drain:3=0/0.0.60.0",
        pool: "180=180 120=120 60=0 -33 60=33 -87 27=27 50=50 -116 50=50 -164",
        held: 60,
        runs: "0:2:ab 0:3:c 1:0:b 1:1:c",
        created: 4,
    },
    Script {
        name: "an ask within a spill of a part",
        max: 600,
        parts: [(0, 8, 8, 0), (50, 1, 8, 0), (30, 2, 1, 8), (0, 8, 8, 0)],
        fails: &[],
        script: "acquire:0:100:100=100/100.0.0.0 feed:0:a=0/100.0.0.0 acquire:1:300:300=300/100.300.0.0 \
            feed:1:b=0/100.300.0.0 acquire:2:200:200=200/100.300.200.0 feed:2:c=0/100.300.200.0 \
            feed:1:a=0/100.300.200.0 feed:2:d=0/100.300.200.0 feed:2:b=0/100.300.200.0 \
            acquire:0:250:250=250/250.0.134.0 acquire:3:90:120=120/250.0.134.120 \
            drain:0=0/250.0.134.120 drain:1=0/250.0.134.120 drain:2=0/250.0.0.120 \
            drain:3=0/250.0.0.120",
        pool: "100=100 300=300 200=200 250=0 50=0 -100 50=50 -83 250=133 30=0 50=0 -267 30=30 -96 \
            117=117 120=120 30=30 -164",
        held: 370,
        runs: "0:0:a 1:1:b 1:2:a 2:3:cd 2:4:b",
        created: 5,
    },
    Script {
        name: "a disk fault within a spill keeps what was not given back",
        max: 600,
        parts: [(0, 8, 8, 0), (50, 1, 8, 16), (30, 2, 1, 8), (0, 8, 8, 0)],
        fails: &[3],
        script: "acquire:0:100:100=100/100.0.0.0 feed:0:a=0/100.0.0.0 acquire:1:300:300=300/100.300.0.0 \
            feed:1:b=0/100.300.0.0 acquire:2:200:200=200/100.300.200.0 feed:2:c=0/100.300.200.0 \
            feed:1:a=0/100.300.200.0 feed:2:d=0/100.300.200.0 feed:2:b=0/100.300.200.0 \
            acquire:0:250:250=disk_fault",
        pool: "100=100 300=300 200=200 250=0 50=0 -100 50=50",
        held: 550,
        runs: "0:0:a",
        created: 2,
    },
];
