// Scripts with blocks. What they answer and leave was computed by a program from the rules alone.
//
// Beside the steps of asks.rt, `admit:W:D.P:N:L=A` is a block of N bytes and level L, of dataset D and part P, that worker
// W would keep: it is in, refused or resident already. `pin:W:D.P=A` is a pin of worker W, which is a hit, finds the block's
// copy alone or misses it, and `unpin:W` gives it back. `remove:W:D` removes a dataset.
//
// Behind the steps stand what is left: the journal, the blocks in memory, the least recently used first, of the store
// disk's files how many were made and how many are left, and the bytes of the storage pool.

// Scripts with blocks: the order in which blocks were used, and pins.
pub const USES: &str = "\
1200 500 1 1 blocks go in use order
admit:0:1.0:200:disk=in admit:0:2.0:200:memory=in admit:0:3.0:200:disk=in \
    admit:0:4.0:200:memory=in admit:0:5.0:200:disk=in ask:0:300=300 ask:0:200=200 ask:0:100=100
journal begin,0,0 admit,0,1,0,200,disk,0,0 admit,0,2,0,200,memory,0,0 admit,0,3,0,200,disk,0,0 \
    admit,0,4,0,200,memory,200,0 admit,0,5,0,200,disk,200,0 evict,0,1,0,200,disk \
    attempt,0,0,300,200,1,300 evict,0,2,0,200,gone attempt,0,0,200,200,1,200 \
    attempt,0,0,100,0,0,100
blocks 3.0:200 4.0:200 5.0:200
files 1 1
storage 600

600 500 1 1 a pin makes a block the last to go
admit:0:1.0:150:disk=in admit:0:2.0:150:memory=in admit:0:3.0:150:memory=in pin:0:1.0=hit \
    unpin:0 pin:0:2.0=hit unpin:0 ask:0:150=150 ask:0:150=150 pin:0:3.0=miss pin:0:1.0=hit \
    unpin:0 pin:0:2.0=hit
journal begin,0,0 admit,0,1,0,150,disk,0,0 admit,0,2,0,150,memory,0,0 \
    admit,0,3,0,150,memory,150,0 pin,0,1,0,resident unpin,0,1,0 pin,0,2,0,resident unpin,0,2,0 \
    attempt,0,0,150,0,0,150 evict,0,3,0,150,gone attempt,0,0,150,150,1,150 pin,0,1,0,resident \
    unpin,0,1,0 pin,0,2,0,resident
blocks 1.0:150 2.0:150:pinned
files 0 0
storage 300

600 500 1 1 an admission that finds the block in memory is no use of it
admit:0:1.0:150:memory=in admit:0:2.0:150:memory=in admit:0:3.0:150:memory=in \
    admit:0:1.0:150:memory=resident ask:0:160=160 pin:0:1.0=miss
journal begin,0,0 admit,0,1,0,150,memory,0,0 admit,0,2,0,150,memory,0,0 \
    admit,0,3,0,150,memory,150,0 evict,0,1,0,150,gone attempt,0,0,160,150,1,160
blocks 2.0:150 3.0:150
files 0 0
storage 300

600 500 1 1 a block in memory stays as it was admitted
admit:0:1.0:300:memory=in ask:0:300=300 admit:0:1.1:101:memory=refused \
    admit:0:1.0:200:disk=resident admit:0:1.0:601:disk=resident pin:0:1.1=miss pin:0:1.0=hit
journal begin,0,0 admit,0,1,0,300,memory,0,0 attempt,0,0,300,0,0,300 refused,0,1,1,101,0,0 \
    pin,0,1,0,resident
blocks 1.0:300:pinned
files 0 0
storage 300

600 500 1 1 a pin keeps a block from an ask
admit:0:1.0:300:disk=in admit:0:2.0:300:disk=in pin:0:1.0=hit ask:0:600=300 unpin:0 ask:0:300=0
journal begin,0,0 admit,0,1,0,300,disk,0,0 admit,0,2,0,300,disk,300,0 pin,0,1,0,resident \
    evict,0,2,0,300,disk attempt,0,0,600,300,1,300 unpin,0,1,0 attempt,0,0,300,0,0,0
blocks 1.0:300
files 1 1
storage 300

600 500 1 1 a pin keeps a block from an admission
admit:0:1.0:300:disk=in admit:0:2.0:300:disk=in pin:0:1.0=hit admit:0:3.0:300:disk=in unpin:0 \
    admit:0:2.0:150:disk=in pin:0:1.0=copy
journal begin,0,0 admit,0,1,0,300,disk,0,0 admit,0,2,0,300,disk,300,0 pin,0,1,0,resident \
    evict,0,2,0,300,disk admit,0,3,0,300,disk,0,1 unpin,0,1,0 evict,0,1,0,300,disk \
    admit,0,2,0,150,disk,0,1 pin,0,1,0,copy
blocks 3.0:300 2.0:150
files 2 2
storage 600

600 500 2 1 two workers pin one block
admit:0:1.0:150:disk=in admit:1:2.0:150:disk=in admit:1:3.0:150:memory=in pin:0:1.0=hit \
    pin:1:1.0=hit unpin:0 ask:0:300=300 ask:0:100=0 pin:0:2.0=copy unpin:1 \
    admit:1:4.0:140:disk=in
journal begin,0,0 admit,0,1,0,150,disk,0,0 admit,1,2,0,150,disk,0,0 admit,1,3,0,150,memory,150,0 \
    pin,0,1,0,resident pin,1,1,0,resident unpin,0,1,0 evict,0,2,0,150,disk \
    attempt,0,0,300,150,1,300 attempt,0,0,100,0,0,0 pin,0,2,0,copy unpin,1,1,0 \
    evict,1,3,0,150,gone admit,1,4,0,140,disk,0,1
blocks 1.0:150 4.0:140
files 1 1
storage 300";

// Scripts with blocks: which blocks find no room.
pub const LIMITS: &str = "\
600 500 1 1 a block puts out none of its own dataset
ask:0:300=300 admit:0:1.0:100:disk=in admit:0:1.1:100:disk=in admit:0:1.2:100:disk=in \
    admit:0:1.3:100:disk=refused admit:0:2.0:100:disk=in admit:0:1.3:100:disk=in
journal begin,0,0 attempt,0,0,300,0,0,300 admit,0,1,0,100,disk,0,0 admit,0,1,1,100,disk,0,0 \
    admit,0,1,2,100,disk,0,0 refused,0,1,3,100,0,0 evict,0,1,0,100,disk admit,0,2,0,100,disk,0,1 \
    evict,0,2,0,100,disk admit,0,1,3,100,disk,0,1
blocks 1.1:100 1.2:100 1.3:100
files 2 2
storage 300

900 500 1 1 those of its own dataset are passed over on the way
ask:0:450=450 admit:0:1.0:150:disk=in admit:0:2.0:150:disk=in admit:0:2.1:150:memory=in \
    admit:0:1.1:200:disk=in pin:0:1.0=hit unpin:0 pin:0:2.0=copy pin:0:2.1=miss
journal begin,0,0 attempt,0,0,450,0,0,450 admit,0,1,0,150,disk,0,0 admit,0,2,0,150,disk,0,0 \
    admit,0,2,1,150,memory,0,0 evict,0,2,0,150,disk evict,0,2,1,150,gone \
    admit,0,1,1,200,disk,0,2 pin,0,1,0,resident unpin,0,1,0 pin,0,2,0,copy
blocks 1.1:200 1.0:150
files 1 1
storage 450

600 500 2 1 no block passes the part of the region of each worker
admit:0:1.0:151:disk=refused admit:1:1.1:150:disk=in admit:1:1.2:300:memory=refused \
    ask:0:300=300 admit:1:1.2:150:memory=in
journal begin,0,0 refused,0,1,0,151,0,0 admit,1,1,1,150,disk,0,0 refused,1,1,2,300,0,0 \
    attempt,0,0,300,0,0,300 admit,1,1,2,150,memory,0,0
blocks 1.1:150 1.2:150
files 0 0
storage 300

600 0 1 1 a region without bytes takes no block
admit:0:1.0:100:disk=refused ask:0:600=600 admit:0:1.0:100:disk=refused end:0=600 \
    admit:0:1.0:100:disk=refused
journal begin,0,0 refused,0,1,0,100,0,0 attempt,0,0,600,0,0,600 refused,0,1,0,100,0,0 \
    end,0,0,600 refused,0,1,0,100,0,0
blocks
files 0 0
storage 0

600 1000 1 1 no block passes what tasks leave
ask:0:400=400 release:0:100=100 admit:0:1.0:301:disk=refused admit:0:1.0:300:disk=in ask:0:100=0 \
    end:0=300 admit:0:1.1:301:disk=refused admit:0:1.2:600:disk=refused admit:0:2.0:600:disk=in
journal begin,0,0 attempt,0,0,400,400,0,400 release,0,0,100 refused,0,1,0,301,0,0 \
    admit,0,1,0,300,disk,100,0 attempt,0,0,100,0,0,0 end,0,0,300 refused,0,1,1,301,300,0 \
    refused,0,1,2,600,0,0 evict,0,1,0,300,disk admit,0,2,0,600,disk,0,1
blocks 2.0:600
files 1 1
storage 600

600 500 1 1 a block of just what tasks leave puts others out
ask:0:300=300 admit:0:1.0:300:memory=in admit:0:2.0:300:disk=in ask:0:1=0 \
    admit:0:3.0:300:disk=in release:0:1=1 admit:0:3.0:300:disk=resident
journal begin,0,0 attempt,0,0,300,0,0,300 admit,0,1,0,300,memory,0,0 evict,0,1,0,300,gone \
    admit,0,2,0,300,disk,0,1 attempt,0,0,1,0,0,0 evict,0,2,0,300,disk admit,0,3,0,300,disk,0,1 \
    release,0,0,1
blocks 3.0:300
files 1 1
storage 300

900 500 1 1 nothing goes where all of them are too few
ask:0:450=450 admit:0:1.0:200:disk=in admit:0:2.0:100:disk=in admit:0:2.1:100:disk=in \
    admit:0:1.1:251:disk=refused admit:0:1.1:250:disk=in
journal begin,0,0 attempt,0,0,450,0,0,450 admit,0,1,0,200,disk,0,0 admit,0,2,0,100,disk,0,0 \
    admit,0,2,1,100,disk,0,0 refused,0,1,1,251,0,0 evict,0,2,0,100,disk evict,0,2,1,100,disk \
    admit,0,1,1,250,disk,0,2
blocks 1.0:200 1.1:250
files 2 2
storage 450

600 500 2 1 nothing goes for an admission while all are pinned
ask:0:300=300 admit:0:1.0:150:disk=in admit:0:2.0:150:disk=in pin:0:1.0=hit pin:1:2.0=hit \
    admit:0:3.0:100:disk=refused unpin:1 admit:0:3.0:100:disk=in
journal begin,0,0 attempt,0,0,300,0,0,300 admit,0,1,0,150,disk,0,0 admit,0,2,0,150,disk,0,0 \
    pin,0,1,0,resident pin,1,2,0,resident refused,0,3,0,100,0,0 unpin,1,2,0 evict,0,2,0,150,disk \
    admit,0,3,0,100,disk,0,1
blocks 1.0:150:pinned 3.0:100
files 1 1
storage 300";

// Scripts with blocks: what storage borrows, and what it gives back.
pub const LOANS: &str = "\
600 500 1 1 just what is missing is borrowed
admit:0:1.0:300:disk=in admit:0:2.0:100:disk=in ask:0:50=50 admit:0:3.0:150:disk=in ask:0:1=1 \
    admit:0:4.0:100:disk=in
journal begin,0,0 admit,0,1,0,300,disk,0,0 admit,0,2,0,100,disk,100,0 attempt,0,0,50,0,0,50 \
    admit,0,3,0,150,disk,150,0 evict,0,1,0,300,disk attempt,0,0,1,300,1,1 \
    admit,0,4,0,100,disk,100,0
blocks 2.0:100 3.0:150 4.0:100
files 1 1
storage 350

600 500 1 1 what storage has free comes first
admit:0:1.0:200:memory=in admit:0:2.0:100:memory=in admit:0:3.0:100:memory=in remove:0:2 \
    admit:0:4.0:150:memory=in admit:0:5.0:150:memory=in admit:0:6.0:110:memory=in
journal begin,0,0 admit,0,1,0,200,memory,0,0 admit,0,2,0,100,memory,0,0 \
    admit,0,3,0,100,memory,100,0 remove,0,2,0,100 admit,0,4,0,150,memory,50,0 \
    admit,0,5,0,150,memory,150,0 evict,0,1,0,200,gone admit,0,6,0,110,memory,0,1
blocks 3.0:100 4.0:150 5.0:150 6.0:110
files 0 0
storage 600

600 500 1 1 what was borrowed stays after a refusal
ask:0:100=100 admit:0:1.0:250:memory=in pin:0:1.0=hit admit:0:2.0:300:memory=refused \
    ask:0:100=100 unpin:0 admit:0:2.0:300:memory=in
journal begin,0,0 attempt,0,0,100,0,0,100 admit,0,1,0,250,memory,0,0 pin,0,1,0,resident \
    refused,0,2,0,300,200,0 attempt,0,0,100,100,0,100 unpin,0,1,0 evict,0,1,0,250,gone \
    admit,0,2,0,300,memory,0,1
blocks 2.0:300
files 0 0
storage 400

600 500 1 1 execution takes back down to the region alone
admit:0:1.0:150:disk=in admit:0:2.0:150:disk=in admit:0:3.0:150:disk=in admit:0:4.0:150:disk=in \
    ask:0:600=300 ask:0:1=0
journal begin,0,0 admit,0,1,0,150,disk,0,0 admit,0,2,0,150,disk,0,0 admit,0,3,0,150,disk,150,0 \
    admit,0,4,0,150,disk,150,0 evict,0,1,0,150,disk evict,0,2,0,150,disk \
    attempt,0,0,600,300,2,300 attempt,0,0,1,0,0,0
blocks 3.0:150 4.0:150
files 2 2
storage 300

600 500 1 1 execution takes no block where storage borrowed nothing
admit:0:1.0:300:disk=in ask:0:301=300 ask:0:100=0 release:0:50=50 ask:0:51=50
journal begin,0,0 admit,0,1,0,300,disk,0,0 attempt,0,0,301,0,0,300 attempt,0,0,100,0,0,0 \
    release,0,0,50 attempt,0,0,51,0,0,50
blocks 1.0:300
files 0 0
storage 300

600 500 1 1 what storage has free goes before any block
admit:0:1.0:200:disk=in admit:0:2.0:200:disk=in remove:0:1 ask:0:300=300 ask:0:100=100 \
    admit:0:1.0:100:disk=in ask:0:101=100
journal begin,0,0 admit,0,1,0,200,disk,0,0 admit,0,2,0,200,disk,100,0 remove,0,1,0,200 \
    attempt,0,0,300,100,0,300 attempt,0,0,100,100,0,100 evict,0,2,0,200,disk \
    admit,0,1,0,100,disk,0,1 attempt,0,0,101,100,0,100
blocks 1.0:100
files 1 1
storage 100";

// Scripts with blocks: several blocks, and large ones.
pub const EVICTIONS: &str = "\
1200 500 1 1 several blocks go for one ask
admit:0:1.0:200:disk=in admit:0:1.1:200:memory=in admit:0:2.0:200:disk=in \
    admit:0:2.1:200:memory=in admit:0:3.0:200:disk=in admit:0:3.1:200:memory=in ask:0:500=500
journal begin,0,0 admit,0,1,0,200,disk,0,0 admit,0,1,1,200,memory,0,0 admit,0,2,0,200,disk,0,0 \
    admit,0,2,1,200,memory,200,0 admit,0,3,0,200,disk,200,0 admit,0,3,1,200,memory,200,0 \
    evict,0,1,0,200,disk evict,0,1,1,200,gone evict,0,2,0,200,disk attempt,0,0,500,600,3,500
blocks 2.1:200 3.0:200 3.1:200
files 2 2
storage 600

1200 500 1 1 several blocks go for one admission
ask:0:600=600 admit:0:1.0:150:disk=in admit:0:2.0:150:memory=in admit:0:3.0:150:disk=in \
    admit:0:4.0:150:memory=in pin:0:2.0=hit admit:0:5.0:301:disk=in unpin:0 \
    admit:0:6.0:299:disk=in
journal begin,0,0 attempt,0,0,600,0,0,600 admit,0,1,0,150,disk,0,0 admit,0,2,0,150,memory,0,0 \
    admit,0,3,0,150,disk,0,0 admit,0,4,0,150,memory,0,0 pin,0,2,0,resident evict,0,1,0,150,disk \
    evict,0,3,0,150,disk evict,0,4,0,150,gone admit,0,5,0,301,disk,0,3 unpin,0,2,0 \
    evict,0,2,0,150,gone admit,0,6,0,299,disk,0,1
blocks 5.0:301 6.0:299
files 2 2
storage 600

1000 500 1 1 a large block takes storage below its region
admit:0:1.0:400:disk=in admit:0:2.0:300:memory=in ask:0:400=400 ask:0:400=300 \
    admit:0:1.0:300:disk=in admit:0:3.0:100:disk=in
journal begin,0,0 admit,0,1,0,400,disk,0,0 admit,0,2,0,300,memory,200,0 evict,0,1,0,400,disk \
    attempt,0,0,400,400,1,400 attempt,0,0,400,0,0,300 evict,0,2,0,300,gone \
    admit,0,1,0,300,disk,0,1 evict,0,1,0,300,disk admit,0,3,0,100,disk,0,1
blocks 3.0:100
files 1 1
storage 300

1500 500 1 1 the last of three blocks takes storage below its region
admit:0:1.0:150:disk=in admit:0:2.0:150:disk=in admit:0:3.0:700:disk=in \
    admit:0:4.0:150:memory=in ask:0:651=651 ask:0:700=699 ask:0:1=0 \
    admit:0:5.0:151:memory=refused
journal begin,0,0 admit,0,1,0,150,disk,0,0 admit,0,2,0,150,disk,0,0 admit,0,3,0,700,disk,250,0 \
    admit,0,4,0,150,memory,150,0 evict,0,1,0,150,disk evict,0,2,0,150,disk evict,0,3,0,700,disk \
    attempt,0,0,651,1000,3,651 attempt,0,0,700,0,0,699 attempt,0,0,1,0,0,0 refused,0,5,0,151,0,0
blocks 4.0:150
files 3 3
storage 150";
