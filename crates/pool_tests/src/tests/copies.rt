// More scripts with blocks, in the form of scripts.rt: copies, removals, tasks that wait, several workers.

// Scripts with blocks: copies on the store disk.
pub const COPIES: &str = "\
600 500 1 1 a block comes back after its eviction
admit:0:1.0:250:disk=in admit:0:2.0:200:disk=in ask:0:300=300 pin:0:1.0=copy \
    admit:0:1.0:250:disk=in end:0=300 admit:0:1.0:250:disk=resident pin:0:1.0=hit unpin:0 \
    pin:0:2.0=copy
journal begin,0,0 admit,0,1,0,250,disk,0,0 admit,0,2,0,200,disk,150,0 evict,0,1,0,250,disk \
    attempt,0,0,300,250,1,300 pin,0,1,0,copy evict,0,2,0,200,disk admit,0,1,0,250,disk,100,1 \
    end,0,0,300 pin,0,1,0,resident unpin,0,1,0 pin,0,2,0,copy
blocks 1.0:250
files 2 2
storage 300

600 500 1 1 a copy is written once
admit:0:1.0:300:disk=in admit:0:2.0:300:disk=in ask:0:300=300 end:0=300 pin:0:1.0=copy \
    admit:0:1.0:300:disk=in begin:0 ask:0:300=300 pin:0:1.0=hit unpin:0 end:0=300 \
    admit:0:2.0:300:disk=in pin:0:2.0=hit unpin:0 begin:0 ask:0:300=300 pin:0:1.0=copy \
    pin:0:2.0=hit
journal begin,0,0 admit,0,1,0,300,disk,0,0 admit,0,2,0,300,disk,300,0 evict,0,1,0,300,disk \
    attempt,0,0,300,300,1,300 end,0,0,300 pin,0,1,0,copy admit,0,1,0,300,disk,300,0 begin,0,7 \
    evict,0,2,0,300,disk attempt,0,7,300,300,1,300 pin,0,1,0,resident unpin,0,1,0 end,0,7,300 \
    admit,0,2,0,300,disk,300,0 pin,0,2,0,resident unpin,0,2,0 begin,0,15 evict,0,1,0,300,disk \
    attempt,0,15,300,300,1,300 pin,0,1,0,copy pin,0,2,0,resident
blocks 2.0:300:pinned
files 2 2
storage 300

600 500 1 1 a block of level memory leaves the copy that it has
admit:0:1.0:300:disk=in admit:0:2.0:300:disk=in ask:0:300=300 end:0=300 \
    admit:0:1.0:300:memory=in pin:0:2.0=hit unpin:0 begin:0 ask:0:300=300 pin:0:1.0=copy \
    end:0=300 admit:0:1.0:300:memory=in remove:0:1 pin:0:1.0=miss
journal begin,0,0 admit,0,1,0,300,disk,0,0 admit,0,2,0,300,disk,300,0 evict,0,1,0,300,disk \
    attempt,0,0,300,300,1,300 end,0,0,300 admit,0,1,0,300,memory,300,0 pin,0,2,0,resident \
    unpin,0,2,0 begin,0,8 evict,0,1,0,300,gone attempt,0,8,300,300,1,300 pin,0,1,0,copy \
    end,0,8,300 admit,0,1,0,300,memory,300,0 remove,0,1,0,300
blocks 2.0:300
files 1 0
storage 600

600 500 1 1 a block of level memory leaves no copy
admit:0:1.0:300:memory=in admit:0:2.0:300:memory=in ask:0:300=300 pin:0:1.0=miss end:0=300 \
    admit:0:1.0:300:disk=in begin:0 ask:0:300=300 pin:0:2.0=miss end:0=300 \
    admit:0:3.0:300:memory=in begin:0 ask:0:300=300 pin:0:1.0=copy
journal begin,0,0 admit,0,1,0,300,memory,0,0 admit,0,2,0,300,memory,300,0 evict,0,1,0,300,gone \
    attempt,0,0,300,300,1,300 end,0,0,300 admit,0,1,0,300,disk,300,0 begin,0,7 \
    evict,0,2,0,300,gone attempt,0,7,300,300,1,300 end,0,7,300 admit,0,3,0,300,memory,300,0 \
    begin,0,12 evict,0,1,0,300,disk attempt,0,12,300,300,1,300 pin,0,1,0,copy
blocks 3.0:300
files 1 1
storage 300

600 500 2 1 a copy that is read is no pin and no use
admit:0:1.0:150:disk=in admit:0:2.0:150:disk=in admit:0:3.0:150:disk=in ask:0:300=300 \
    pin:0:1.0=copy pin:0:1.0=copy pin:1:1.0=copy pin:0:2.0=hit unpin:0 ask:0:150=0 pin:1:3.0=hit
journal begin,0,0 admit,0,1,0,150,disk,0,0 admit,0,2,0,150,disk,0,0 admit,0,3,0,150,disk,150,0 \
    evict,0,1,0,150,disk attempt,0,0,300,150,1,300 pin,0,1,0,copy pin,0,1,0,copy pin,1,1,0,copy \
    pin,0,2,0,resident unpin,0,2,0 attempt,0,0,150,0,0,0 pin,1,3,0,resident
blocks 2.0:150 3.0:150:pinned
files 1 1
storage 300";

// Scripts with blocks: datasets that are removed.
pub const REMOVALS: &str = "\
600 500 1 1 a removal forgets copies and their files
admit:0:1.0:150:disk=in admit:0:2.0:150:disk=in admit:0:1.1:150:disk=in admit:0:3.0:150:disk=in \
    ask:0:300=300 pin:0:1.0=copy pin:0:2.0=copy remove:0:1 pin:0:1.0=miss pin:0:1.1=miss \
    pin:0:2.0=copy admit:0:1.0:150:disk=in ask:0:150=0 admit:0:4.0:150:disk=in \
    admit:0:5.0:300:disk=in pin:0:1.0=copy
journal begin,0,0 admit,0,1,0,150,disk,0,0 admit,0,2,0,150,disk,0,0 admit,0,1,1,150,disk,150,0 \
    admit,0,3,0,150,disk,150,0 evict,0,1,0,150,disk evict,0,2,0,150,disk \
    attempt,0,0,300,300,2,300 pin,0,1,0,copy pin,0,2,0,copy remove,0,1,1,150 pin,0,2,0,copy \
    admit,0,1,0,150,disk,0,0 attempt,0,0,150,0,0,0 evict,0,3,0,150,disk admit,0,4,0,150,disk,0,1 \
    evict,0,1,0,150,disk evict,0,4,0,150,disk admit,0,5,0,300,disk,0,2 pin,0,1,0,copy
blocks 5.0:300
files 5 4
storage 300

600 500 1 1 a removal leaves a pinned block
admit:0:1.0:100:disk=in admit:0:1.1:100:disk=in admit:0:1.2:100:memory=in \
    admit:0:2.0:100:disk=in pin:0:1.1=hit remove:0:1 unpin:0 pin:0:1.0=miss pin:0:1.1=hit \
    unpin:0 remove:0:1 pin:0:1.1=miss
journal begin,0,0 admit,0,1,0,100,disk,0,0 admit,0,1,1,100,disk,0,0 admit,0,1,2,100,memory,0,0 \
    admit,0,2,0,100,disk,100,0 pin,0,1,1,resident remove,0,1,0,100 remove,0,1,2,100 unpin,0,1,1 \
    pin,0,1,1,resident unpin,0,1,1 remove,0,1,1,100
blocks 2.0:100
files 0 0
storage 400

600 500 2 1 a removal forgets the copy of a block that is pinned
admit:0:1.0:150:disk=in admit:0:2.0:150:disk=in admit:0:3.0:150:memory=in ask:0:300=300 \
    end:0=300 admit:0:1.0:150:disk=in pin:0:1.0=hit remove:1:1 unpin:0 begin:0 pin:1:2.0=hit \
    admit:1:4.0:150:memory=in admit:1:5.0:150:memory=in ask:0:300=300 pin:0:1.0=copy
journal begin,0,0 admit,0,1,0,150,disk,0,0 admit,0,2,0,150,disk,0,0 admit,0,3,0,150,memory,150,0 \
    evict,0,1,0,150,disk attempt,0,0,300,150,1,300 end,0,0,300 admit,0,1,0,150,disk,150,0 \
    pin,0,1,0,resident unpin,0,1,0 begin,0,10 pin,1,2,0,resident admit,1,4,0,150,memory,150,0 \
    evict,1,3,0,150,gone admit,1,5,0,150,memory,0,1 evict,0,1,0,150,disk evict,0,4,0,150,gone \
    attempt,0,10,300,300,2,300 pin,0,1,0,copy
blocks 2.0:150:pinned 5.0:150
files 2 1
storage 300

600 500 1 1 a removal goes up by part
admit:0:1.7:100:disk=in admit:0:1.2:100:memory=in admit:0:2.0:100:disk=in \
    admit:0:1.9:100:disk=in admit:0:1.4:100:disk=in pin:0:1.2=hit unpin:0 remove:0:1 remove:0:1 \
    pin:0:2.0=hit
journal begin,0,0 admit,0,1,7,100,disk,0,0 admit,0,1,2,100,memory,0,0 admit,0,2,0,100,disk,0,0 \
    admit,0,1,9,100,disk,100,0 admit,0,1,4,100,disk,100,0 pin,0,1,2,resident unpin,0,1,2 \
    remove,0,1,2,100 remove,0,1,4,100 remove,0,1,7,100 remove,0,1,9,100 pin,0,2,0,resident
blocks 2.0:100:pinned
files 0 0
storage 500

600 500 1 1 a removal of what is nowhere makes no entry
remove:0:1 admit:0:1.0:300:disk=in remove:0:2 admit:0:2.0:300:disk=in ask:0:300=300 remove:0:1 \
    pin:0:1.0=miss remove:0:3
journal begin,0,0 admit,0,1,0,300,disk,0,0 admit,0,2,0,300,disk,300,0 evict,0,1,0,300,disk \
    attempt,0,0,300,300,1,300
blocks 2.0:300
files 1 0
storage 300";

// Scripts with blocks: tasks that wait beside blocks.
pub const WAITS: &str = "\
1000 400 2 2 a task that waits has put a block out
ask:0:560=560 admit:0:1.0:100:disk=in admit:1:2.0:170:disk=in admit:1:2.1:170:disk=in \
    ask:1:300=wait pin:1:1.0=copy ask:1:300=wait release:0:64=64 ask:1:300=wait release:0:1=1 \
    ask:1:300=165
journal begin,0,0 begin,1,1 attempt,0,0,560,0,0,560 admit,0,1,0,100,disk,0,0 \
    admit,1,2,0,170,disk,0,0 admit,1,2,1,170,disk,40,0 evict,1,1,0,100,disk \
    attempt,1,1,300,100,1,wait pin,1,1,0,copy attempt,1,1,300,0,0,wait release,0,0,64 \
    attempt,1,1,300,0,0,wait release,0,0,1 attempt,1,1,300,0,0,165
blocks 2.0:170 2.1:170
files 1 1
storage 340

3000 400 2 2 a task that waits has put two blocks out
ask:0:1600=1600 admit:0:1.0:150:disk=in admit:1:1.1:150:memory=in admit:1:2.0:600:disk=in \
    admit:0:2.1:500:disk=in ask:1:900=wait ask:1:900=wait ask:0:100=0 end:0=1600 ask:1:900=900 \
    ask:1:2000=1000
journal begin,0,0 begin,1,1 attempt,0,0,1600,0,0,1600 admit,0,1,0,150,disk,0,0 \
    admit,1,1,1,150,memory,0,0 admit,1,2,0,600,disk,0,0 admit,0,2,1,500,disk,200,0 \
    evict,1,1,0,150,disk evict,1,1,1,150,gone attempt,1,1,900,300,2,wait \
    attempt,1,1,900,0,0,wait attempt,0,0,100,0,0,0 end,0,0,1600 attempt,1,1,900,0,0,900 \
    attempt,1,1,2000,0,0,1000
blocks 2.0:600 2.1:500
files 1 1
storage 1100

600 500 2 2 a task waits while storage keeps its region
admit:0:1.0:150:disk=in admit:1:1.1:150:disk=in ask:0:300=300 ask:1:100=wait release:0:150=150 \
    ask:1:100=100 remove:1:1 ask:1:300=200
journal begin,0,0 begin,1,1 admit,0,1,0,150,disk,0,0 admit,1,1,1,150,disk,0,0 \
    attempt,0,0,300,0,0,300 attempt,1,1,100,0,0,wait release,0,0,150 attempt,1,1,100,0,0,100 \
    remove,1,1,0,150 remove,1,1,1,150 attempt,1,1,300,250,0,200
blocks
files 0 0
storage 50

800 500 2 2 what moved for a wait stays moved
ask:0:400=400 admit:1:1.0:200:disk=in admit:1:2.0:200:memory=in admit:1:3.0:100:disk=in \
    ask:1:300=wait release:0:100=100 admit:1:3.0:200:disk=resident ask:1:300=200 \
    release:0:150=150 ask:1:300=50
journal begin,0,0 begin,1,1 attempt,0,0,400,0,0,400 admit,1,1,0,200,disk,0,0 \
    admit,1,2,0,200,memory,0,0 evict,1,1,0,200,disk admit,1,3,0,100,disk,0,1 \
    attempt,1,1,300,100,0,wait release,0,0,100 attempt,1,1,300,0,0,200 release,0,0,150 \
    attempt,1,1,300,0,0,50
blocks 2.0:200 3.0:100
files 1 1
storage 300

1000 500 2 2 blocks lower the fair share up to the region
admit:0:1.0:250:disk=in admit:1:2.0:150:disk=in ask:0:300=300 ask:1:300=300 ask:0:100=0 \
    remove:0:2 ask:0:100=75 ask:1:100=75
journal begin,0,0 begin,1,1 admit,0,1,0,250,disk,0,0 admit,1,2,0,150,disk,0,0 \
    attempt,0,0,300,0,0,300 attempt,1,1,300,100,0,300 attempt,0,0,100,0,0,0 remove,0,2,0,150 \
    attempt,0,0,100,100,0,75 attempt,1,1,100,50,0,75
blocks 1.0:250
files 0 0
storage 250";

// Scripts with blocks: several workers with blocks and tasks.
pub const CROWDS: &str = "\
800 500 4 4 four workers pin all that the region takes
admit:0:1.0:100:disk=in admit:1:2.0:100:disk=in admit:2:3.0:100:disk=in admit:3:4.0:100:disk=in \
    admit:0:5.0:100:disk=in admit:1:5.1:100:memory=in pin:0:1.0=hit pin:1:2.0=hit pin:2:3.0=hit \
    pin:3:4.0=hit ask:0:400=400 ask:1:200=wait unpin:2 ask:3:100=wait remove:2:3 ask:3:100=100
journal begin,0,0 begin,1,1 begin,2,2 begin,3,3 admit,0,1,0,100,disk,0,0 \
    admit,1,2,0,100,disk,0,0 admit,2,3,0,100,disk,0,0 admit,3,4,0,100,disk,0,0 \
    admit,0,5,0,100,disk,100,0 admit,1,5,1,100,memory,100,0 pin,0,1,0,resident \
    pin,1,2,0,resident pin,2,3,0,resident pin,3,4,0,resident evict,0,5,0,100,disk \
    evict,0,5,1,100,gone attempt,0,0,400,200,2,400 attempt,1,1,200,0,0,wait unpin,2,3,0 \
    attempt,3,3,100,0,0,wait remove,2,3,0,100 attempt,3,3,100,100,0,100
blocks 1.0:100:pinned 2.0:100:pinned 4.0:100:pinned
files 1 1
storage 300

3200 500 16 16 sixteen workers share a region
admit:0:1.0:100:disk=in admit:1:1.1:100:memory=in admit:2:1.2:100:disk=in \
    admit:3:1.3:100:disk=in admit:15:1.15:101:disk=refused admit:15:1.15:100:disk=in \
    pin:15:1.0=hit pin:14:1.0=hit pin:13:1.15=hit ask:0:2900=2700 ask:15:200=wait remove:7:1 \
    ask:15:10=10
journal begin,0,0 begin,1,1 begin,2,2 begin,3,3 begin,4,4 begin,5,5 begin,6,6 begin,7,7 \
    begin,8,8 begin,9,9 begin,10,10 begin,11,11 begin,12,12 begin,13,13 begin,14,14 begin,15,15 \
    admit,0,1,0,100,disk,0,0 admit,1,1,1,100,memory,0,0 admit,2,1,2,100,disk,0,0 \
    admit,3,1,3,100,disk,0,0 refused,15,1,15,101,0,0 admit,15,1,15,100,disk,0,0 \
    pin,15,1,0,resident pin,14,1,0,resident pin,13,1,15,resident attempt,0,0,2900,1100,0,2700 \
    attempt,15,15,200,0,0,wait remove,7,1,1,100 remove,7,1,2,100 remove,7,1,3,100 \
    attempt,15,15,10,10,0,10
blocks 1.0:100:pinned 1.15:100:pinned
files 0 0
storage 490

100003 613 3 3 larger pools in odd sizes
ask:0:38701=38701 admit:0:1.0:20434:disk=refused admit:1:1.0:20433:disk=in \
    admit:1:1.1:20433:memory=in admit:2:2.0:20433:disk=in admit:0:2.1:19999:disk=in \
    ask:1:7777=wait pin:2:1.1=hit ask:2:12345=wait release:0:10101=10101 \
    admit:1:3.0:20433:disk=in ask:2:12345=10538 ask:1:10000=wait unpin:2 end:0=28600 \
    ask:1:29999=19569 end:1=19569 remove:2:2 ask:2:77777=48599 end:2=59137
journal begin,0,0 begin,1,1 begin,2,2 attempt,0,0,38701,0,0,38701 refused,0,1,0,20434,0,0 \
    admit,1,1,0,20433,disk,0,0 admit,1,1,1,20433,memory,0,0 admit,2,2,0,20433,disk,0,0 \
    evict,0,1,0,20433,disk admit,0,2,1,19999,disk,1,1 attempt,1,1,7777,437,0,wait \
    pin,2,1,1,resident attempt,2,2,12345,0,0,wait release,0,0,10101 evict,1,2,0,20433,disk \
    admit,1,3,0,20433,disk,10538,1 attempt,2,2,12345,10538,0,10538 attempt,1,1,10000,0,0,wait \
    unpin,2,1,1 end,0,0,28600 attempt,1,1,29999,0,0,19569 end,1,1,19569 remove,2,2,1,19999 \
    attempt,2,2,77777,19999,0,48599 end,2,2,59137
blocks 1.1:20433 3.0:20433
files 2 1
storage 40866";
