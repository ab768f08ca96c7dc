// Scripts of whole lives of a memory with leasts and room, worked out by hand. `scripts.rt` says how they are read.
use crate::tests::scripts::Script;

/// The leasts of the four boxes, of which 2 and 0 are consumers 0 and 1, and what is played.
#[derive(Clone, Copy)]
pub struct Life {
    pub leasts: [u64; 4],
    pub wanted: Script,
}

/// Lives that were worked out by hand. `free` gives the leasts back, `room:MUST:WISH` gets bytes beside the consumers
/// and `give:BYTES` gives such bytes back. What is used stands by box.
pub const LIVES: &[Life] = &[
    Life {
        // The leasts of boxes 1 and 3 aren't asked for: 20 + 30 are held at first. Each entry costs 33. Consumer 1 gets
        // the 450 that are left, and frees them when 300 are asked for: consumer 0 uses 100, which isn't enough for 200.
        // Then it gets 250. A spill of consumer 0 writes b and frees its 33, and another one a and the rest.
        leasts: [30, 500, 20, 500],
        wanted: Script {
            name: "a life without a refusal",
            max: 600,
            parts: [(0, 8, 8, 0), (0, 8, 8, 0), (0, 8, 8, 0), (0, 8, 8, 0)],
            fails: &[],
            script: "acquire:0:100:100=100/0.0.100.0 feed:0:b=0/0.0.100.0 feed:0:a=0/0.0.100.0 \
                feed:1:c=0/450.0.100.0 feed:1:d=0/450.0.100.0 acquire:0:200:300=200/0.0.300.0 \
                feed:1:e=0/250.0.300.0 drain:0=0/250.0.0.0 drain:1=0/0.0.0.0 free=0/0.0.0.0 \
                room:64:500=500/0.0.0.0 room:100:200=100/0.0.0.0 give:150=0/0.0.0.0",
            pool: "20=20 30=30 100=100 16384=450 300=0 -450 200=200 16384=250 -33 -267 -250 -50 \
                500=500 200=100 -150",
            held: 450,
            runs: "0:1:b 0:2:a 1:0:cd 1:3:e",
            created: 4,
        },
    },
    Life {
        // 100 are got, which is one too few.
        leasts: [30, 500, 20, 500],
        wanted: Script {
            name: "room that is lacking",
            max: 600,
            parts: [(0, 8, 8, 0), (0, 8, 8, 0), (0, 8, 8, 0), (0, 8, 8, 0)],
            fails: &[],
            script: "drain:0=0/0.0.0.0 free=0/0.0.0.0 room:64:500=500/0.0.0.0 \
                room:101:200=no_room:101",
            pool: "20=20 30=30 -50 500=500 200=100 -100",
            held: 500,
            runs: "",
            created: 0,
        },
    },
];
