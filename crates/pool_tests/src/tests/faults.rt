// A script with a store disk that may fail, once: evictions for asks and for admissions, copies that are read back, and
// removals. A block that is missed is made anew.
pub const SCRIPT: &str = "\
600 500 1 1 a disk that fails once
admit:0:1.0:150:disk=in admit:0:1.1:150:disk=in admit:0:2.0:150:disk=in \
    admit:0:3.0:150:memory=in ask:0:300=300 pin:0:1.0=copy pin:0:1.0=copy end:0=300 \
    admit:0:1.0:150:disk=in pin:0:1.1=copy pin:0:1.1=copy admit:0:1.1:150:disk=in begin:0 \
    ask:0:300=300 pin:0:2.0=copy pin:0:2.0=copy admit:0:4.0:300:disk=in pin:0:1.0=copy \
    pin:0:1.0=copy admit:0:5.0:151:disk=in pin:0:4.0=copy pin:0:4.0=copy pin:0:2.0=copy \
    remove:0:1 pin:0:1.0=miss remove:0:5 end:0=300 pin:0:2.0=copy pin:0:4.0=copy
journal begin,0,0 admit,0,1,0,150,disk,0,0 admit,0,1,1,150,disk,0,0 admit,0,2,0,150,disk,150,0 \
    admit,0,3,0,150,memory,150,0 evict,0,1,0,150,disk evict,0,1,1,150,disk \
    attempt,0,0,300,300,2,300 pin,0,1,0,copy pin,0,1,0,copy end,0,0,300 \
    admit,0,1,0,150,disk,150,0 pin,0,1,1,copy pin,0,1,1,copy admit,0,1,1,150,disk,150,0 \
    begin,0,13 evict,0,2,0,150,disk evict,0,3,0,150,gone attempt,0,13,300,300,2,300 \
    pin,0,2,0,copy pin,0,2,0,copy evict,0,1,0,150,disk evict,0,1,1,150,disk \
    admit,0,4,0,300,disk,0,2 pin,0,1,0,copy pin,0,1,0,copy evict,0,4,0,300,disk \
    admit,0,5,0,151,disk,0,1 pin,0,4,0,copy pin,0,4,0,copy pin,0,2,0,copy remove,0,5,0,151 \
    end,0,13,300 pin,0,2,0,copy pin,0,4,0,copy
blocks
files 4 2
storage 300";

// What changes in it where the call of this number fails: which of its copies aren't read, and which of its evictions
// leave none, both counted from 0, and the files that are made and left. The calls are two for each copy that is written,
// one for each that is read, and one for each that is forgotten; the last number is that of no call.
pub const FAULTS: &str = "\
missed 0 1; gone 0; files 4 2
missed 0 1; gone 0; files 5 2
missed 2 3; gone 1; files 4 2
missed 2 3; gone 1; files 5 2
missed 0; gone; files 4 2
missed 1; gone; files 4 2
missed 2; gone; files 4 2
missed 3; gone; files 4 2
missed 4 5 10 11; gone 2; files 3 1
missed 4 5 10 11; gone 2; files 4 1
missed 4; gone; files 4 2
missed 5; gone; files 4 2
missed 6; gone; files 4 2
missed 7; gone; files 4 2
missed 8 9 12; gone 6; files 3 1
missed 8 9 12; gone 6; files 4 1
missed 8; gone; files 4 2
missed 9; gone; files 4 2
missed 10; gone; files 4 2
missed; gone; files 4 3
missed; gone; files 4 3
missed 11; gone; files 4 2
missed 12; gone; files 4 2
missed; gone; files 4 2";
