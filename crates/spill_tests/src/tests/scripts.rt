// Scripts with their answers, which `tools/spill_model.py` computed from the rules of asks and spills: grants and
// refusals.
//
// `acquire:C:MUST:WISH` is an acquire for consumer C, `feed:C:KEY` an entry and `drain:C` a drain. Behind `=` stand the
// bytes that were got, 0 but for an acquire, and what the four boxes use then; or the refusal, which ends the script.
// The boxes are the consumers, in their order, and have no least.

/// How a part spiller spills: the bytes that it asks for first, the most entries of a run and of a page, and the bytes
/// that it gives back before it writes.
pub type Parts = (u64, usize, usize, u64);

/// A pool of `max` bytes, the consumers, the disk's calls that fail, the steps with their answers, what was asked of the
/// pool and granted or given back, what the task held at its end, each run as `C:FILE:KEYS`, and how many files were
/// made.
#[derive(Clone, Copy)]
pub struct Script {
    pub name: &'static str,
    pub max: u64,
    pub parts: [Parts; 4],
    pub fails: &'static [u64],
    pub script: &'static str,
    pub pool: &'static str,
    pub held: u64,
    pub runs: &'static str,
    pub created: u64,
}

/// The rows that were worked out by hand, and the first of them with drains.
pub const WORKED: &[Script] = &[
    Script {
        name: "the asker spills for a spill",
        max: 600,
        parts: [(0, 8, 8, 0), (50, 8, 8, 0), (0, 8, 8, 0), (0, 8, 8, 0)],
        fails: &[],
        script: "acquire:0:100:100=100/100.0.0.0 feed:0:a=0/100.0.0.0 acquire:1:300:300=300/100.300.0.0 \
            feed:1:b=0/100.300.0.0 acquire:2:200:200=200/100.300.200.0 feed:2:c=0/100.300.200.0 \
            acquire:0:250:250=250/250.0.200.0",
        pool: "100=100 300=300 200=200 250=0 50=0 -100 50=50 -350 250=250",
        held: 450,
        runs: "0:0:a 1:1:b",
        created: 2,
    },
    Script {
        name: "the asker spills for a spill, and all are drained",
        max: 600,
        parts: [(0, 8, 8, 0), (50, 8, 8, 0), (0, 8, 8, 0), (0, 8, 8, 0)],
        fails: &[],
        script: "acquire:0:100:100=100/100.0.0.0 feed:0:a=0/100.0.0.0 acquire:1:300:300=300/100.300.0.0 \
            feed:1:b=0/100.300.0.0 acquire:2:200:200=200/100.300.200.0 feed:2:c=0/100.300.200.0 \
            acquire:0:250:250=250/250.0.200.0 drain:0=0/250.0.200.0 drain:1=0/250.0.200.0 \
            drain:2=0/250.0.0.0 drain:3=0/250.0.0.0",
        pool: "100=100 300=300 200=200 250=0 50=0 -100 50=50 -350 250=250 -200",
        held: 250,
        runs: "0:0:a 1:1:b 2:2:c",
        created: 3,
    },
    Script {
        name: "another consumer spills for a spill",
        max: 600,
        parts: [(0, 8, 8, 0), (50, 8, 8, 0), (0, 8, 8, 0), (0, 8, 8, 0)],
        fails: &[],
        script: "acquire:1:400:400=400/0.400.0.0 feed:1:b=0/0.400.0.0 acquire:2:200:200=200/0.400.200.0 \
            feed:2:c=0/0.400.200.0 acquire:0:250:250=250/250.0.0.0",
        pool: "400=400 200=200 250=0 50=0 -200 50=50 -450 250=250",
        held: 250,
        runs: "1:1:b 2:0:c",
        created: 2,
    },
    Script {
        name: "a spill that nobody can help is told of nothing",
        max: 600,
        parts: [(0, 8, 8, 0), (50, 8, 8, 0), (0, 8, 8, 0), (0, 8, 8, 0)],
        fails: &[],
        script: "acquire:1:600:600=600/0.600.0.0 feed:1:b=0/0.600.0.0 acquire:0:250:250=250/250.0.0.0",
        pool: "600=600 250=0 50=0 -600 250=250",
        held: 250,
        runs: "1:0:b",
        created: 1,
    },
    Script {
        name: "the first append after the first choice fails",
        max: 600,
        parts: [(0, 8, 8, 0), (50, 8, 8, 0), (0, 8, 8, 0), (0, 8, 8, 0)],
        fails: &[1],
        script: "acquire:0:100:100=100/100.0.0.0 feed:0:a=0/100.0.0.0 acquire:1:300:300=300/100.300.0.0 \
            feed:1:b=0/100.300.0.0 acquire:2:200:200=200/100.300.200.0 feed:2:c=0/100.300.200.0 \
            acquire:0:250:250=disk_fault",
        pool: "100=100 300=300 200=200 250=0 50=0",
        held: 600,
        runs: "",
        created: 1,
    },
];

/// What is granted without a spill, and what is refused.
pub const GRANTS: &[Script] = &[
    Script {
        name: "a wish is granted whole",
        max: 600,
        parts: [(0, 8, 8, 0), (0, 8, 8, 0), (0, 8, 8, 0), (0, 8, 8, 0)],
        fails: &[],
        script: "acquire:0:100:300=300/300.0.0.0 feed:0:a=0/300.0.0.0 acquire:1:1:300=300/300.300.0.0 \
            acquire:2:1:1=1/0.300.1.0",
        pool: "300=300 300=300 1=0 -300 1=1",
        held: 301,
        runs: "0:0:a",
        created: 1,
    },
    Script {
        name: "a short grant that is enough spills nobody",
        max: 600,
        parts: [(0, 8, 8, 0), (0, 8, 8, 0), (0, 8, 8, 0), (0, 8, 8, 0)],
        fails: &[],
        script: "acquire:0:200:200=200/200.0.0.0 feed:0:a=0/200.0.0.0 acquire:1:300:300=300/200.300.0.0 \
            feed:1:b=0/200.300.0.0 acquire:2:50:400=100/200.300.100.0 drain:0=0/0.300.100.0 \
            drain:1=0/0.0.100.0 drain:2=0/0.0.100.0 drain:3=0/0.0.100.0",
        pool: "200=200 300=300 400=100 -200 -300",
        held: 100,
        runs: "0:0:a 1:1:b",
        created: 2,
    },
    Script {
        name: "a grant that is one byte short spills",
        max: 600,
        parts: [(0, 8, 8, 0), (0, 8, 8, 0), (0, 8, 8, 0), (0, 8, 8, 0)],
        fails: &[],
        script: "acquire:0:200:200=200/200.0.0.0 feed:0:a=0/200.0.0.0 acquire:1:300:300=300/200.300.0.0 \
            feed:1:b=0/200.300.0.0 acquire:2:101:400=101/0.300.101.0 drain:0=0/0.300.101.0 \
            drain:1=0/0.0.101.0 drain:2=0/0.0.101.0 drain:3=0/0.0.101.0",
        pool: "200=200 300=300 400=100 -200 1=1 -300",
        held: 101,
        runs: "0:0:a 1:1:b",
        created: 2,
    },
    Script {
        name: "a wish is no more once somebody spilled",
        max: 600,
        parts: [(0, 8, 8, 0), (0, 8, 8, 0), (0, 8, 8, 0), (0, 8, 8, 0)],
        fails: &[],
        script: "acquire:0:200:200=200/200.0.0.0 feed:0:a=0/200.0.0.0 acquire:1:300:300=300/200.300.0.0 \
            feed:1:b=0/200.300.0.0 acquire:2:50:50=50/200.300.50.0 feed:2:c=0/200.300.50.0 \
            acquire:3:60:500=60/200.300.0.60 drain:0=0/0.300.0.60 drain:1=0/0.0.0.60 \
            drain:2=0/0.0.0.60 drain:3=0/0.0.0.60",
        pool: "200=200 300=300 50=50 500=50 -50 10=10 -200 -300",
        held: 60,
        runs: "0:1:a 1:2:b 2:0:c",
        created: 3,
    },
    Script {
        name: "nobody has an entry left to spill",
        max: 600,
        parts: [(0, 8, 8, 0), (0, 8, 8, 0), (0, 8, 8, 0), (0, 8, 8, 0)],
        fails: &[],
        script: "acquire:0:300:300=300/300.0.0.0 acquire:1:200:200=200/300.200.0.0 \
            acquire:2:101:101=no_room:101",
        pool: "300=300 200=200 101=100 -100",
        held: 500,
        runs: "",
        created: 0,
    },
    Script {
        name: "more than the pool is refused once all are empty",
        max: 600,
        parts: [(0, 8, 8, 0), (0, 8, 8, 0), (0, 8, 8, 0), (0, 8, 8, 0)],
        fails: &[],
        script: "acquire:0:100:100=100/100.0.0.0 feed:0:a=0/100.0.0.0 acquire:1:200:200=200/100.200.0.0 \
            feed:1:b=0/100.200.0.0 acquire:2:300:300=300/100.200.300.0 feed:2:c=0/100.200.300.0 \
            acquire:3:601:601=no_room:601",
        pool: "100=100 200=200 300=300 601=0 -300 601=300 -200 301=200 -100 101=100 -600",
        held: 0,
        runs: "0:2:a 1:1:b 2:0:c",
        created: 3,
    },
    Script {
        name: "more than the pool is refused beside idle bytes",
        max: 600,
        parts: [(0, 8, 8, 0), (0, 8, 8, 0), (0, 8, 8, 0), (0, 8, 8, 0)],
        fails: &[],
        script: "acquire:0:100:100=100/100.0.0.0 feed:0:a=0/100.0.0.0 acquire:1:250:250=250/100.250.0.0 \
            acquire:2:351:351=no_room:351",
        pool: "100=100 250=250 351=250 -100 101=100 -350",
        held: 250,
        runs: "0:0:a",
        created: 1,
    },
    Script {
        name: "all but idle bytes are got",
        max: 600,
        parts: [(0, 8, 8, 0), (0, 8, 8, 0), (0, 8, 8, 0), (0, 8, 8, 0)],
        fails: &[],
        script: "acquire:0:100:100=100/100.0.0.0 feed:0:a=0/100.0.0.0 acquire:1:250:250=250/100.250.0.0 \
            acquire:2:350:350=350/0.250.350.0 drain:0=0/0.250.350.0 drain:1=0/0.250.350.0 \
            drain:2=0/0.250.350.0 drain:3=0/0.250.350.0",
        pool: "100=100 250=250 350=250 -100 100=100",
        held: 600,
        runs: "0:0:a",
        created: 1,
    },
    Script {
        name: "a feed that lacks room is refused",
        max: 65,
        parts: [(0, 8, 8, 0), (0, 8, 8, 0), (0, 8, 8, 0), (0, 8, 8, 0)],
        fails: &[],
        script: "acquire:0:33:33=33/33.0.0.0 feed:1:a=no_room:33",
        pool: "33=33 16384=32 -32",
        held: 33,
        runs: "",
        created: 0,
    },
    Script {
        name: "a feed takes what the pool has",
        max: 100,
        parts: [(0, 8, 8, 0), (0, 8, 8, 0), (0, 8, 8, 0), (0, 8, 8, 0)],
        fails: &[],
        script: "feed:0:a=0/100.0.0.0 feed:0:b=0/100.0.0.0 feed:0:c=0/100.0.0.0 feed:1:d=0/0.33.0.0 \
            drain:1=0/0.0.0.0 feed:1:e=0/0.100.0.0 drain:0=0/0.100.0.0 drain:1=0/0.0.0.0 \
            drain:2=0/0.0.0.0 drain:3=0/0.0.0.0",
        pool: "16384=100 16384=0 -100 33=33 -33 16384=100 -100",
        held: 0,
        runs: "0:0:abc 1:1:d 1:2:e",
        created: 3,
    },
    Script {
        name: "a feed spills its own consumer",
        max: 100,
        parts: [(0, 8, 8, 0), (0, 8, 8, 0), (0, 8, 8, 0), (0, 8, 8, 0)],
        fails: &[],
        script: "feed:0:a=0/100.0.0.0 feed:0:b=0/100.0.0.0 feed:0:c=0/100.0.0.0 feed:0:d=0/100.0.0.0 \
            feed:0:e=0/100.0.0.0 drain:0=0/0.0.0.0",
        pool: "16384=100 16384=0 -100 32=32 16384=68 -100",
        held: 0,
        runs: "0:0:abc 0:1:de",
        created: 2,
    },
];

/// The consumers of each of four tasks that share a pool.
pub const SHARED_PARTS: [Parts; 4] = [(0, 8, 8, 0), (40, 8, 8, 4), (0, 1, 8, 0), (60, 2, 1, 16)];

/// What each of the four tasks does: twelve entries that cost 396 bytes, and the drains.
pub const SHARED_SCRIPTS: [&str; 4] = [
    "feed:0:a feed:1:d feed:2:b feed:3:c feed:0:c feed:1:a feed:2:f feed:3:b feed:0:b feed:1:e \
            feed:2:a feed:3:d drain:0 drain:1 drain:2 drain:3",
    "feed:3:f feed:3:e feed:3:d feed:2:a feed:2:b feed:2:c feed:1:c feed:1:c feed:0:a feed:3:a \
            feed:0:f feed:1:b drain:0 drain:1 drain:2 drain:3",
    "feed:2:a feed:2:b feed:2:c feed:0:a feed:2:d feed:2:e feed:1:b feed:2:f feed:3:c feed:3:a \
            feed:1:d feed:0:e drain:0 drain:1 drain:2 drain:3",
    "feed:1:f feed:0:f feed:3:f feed:2:f feed:1:e feed:0:e feed:3:e feed:2:e feed:1:d feed:0:d \
            feed:3:d feed:2:d drain:0 drain:1 drain:2 drain:3",
];
