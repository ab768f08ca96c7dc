// Scripts of asks with their answers, which were computed from the definitions, as sums over whole journals.
//
// The numbers are the bytes of both pools, the storage fraction in thousandths, the number of workers, and how many of
// them, from 0 on, have begun a task. `ask:W:N=G` is an ask of worker W's task for N bytes that is granted G or told to
// wait, `release:W:N=F` frees F, `end:W=F` too, and `begin:W` begins the worker's next task.
pub const ASKS: &str = "\
600 500 16 1 one task takes all
ask:0:600=600 ask:0:1=0 end:0=600

600 500 16 1 one task takes all in parts
ask:0:100=100 ask:0:250=250 ask:0:250=250 ask:0:50=0 end:0=600

600 500 16 1 a lone task is granted short of what there isn't
ask:0:700=600 end:0=600

600 500 16 2 two tasks, the first holds most
ask:0:500=500 ask:1:200=wait ask:0:50=0 release:0:100=100 ask:1:200=200

600 500 16 2 two tasks meet at a half each
ask:0:600=600 ask:1:300=wait release:0:300=300 ask:1:300=300 ask:0:1=0 ask:1:1=0

600 500 16 2 half of a half is enough to go on
ask:0:450=450 ask:1:300=150 ask:0:1=0

600 500 16 2 one byte less than half of a half is not
ask:0:451=451 ask:1:300=wait release:0:1=1 ask:1:300=150

600 500 16 3 a third waits until it can have a sixth
ask:0:300=300 ask:1:300=300 ask:2:200=wait release:0:50=50 ask:2:200=wait release:1:50=50 \
    ask:2:200=100 ask:2:100=0

600 500 16 2 a task that released all is no longer counted
ask:0:400=400 release:0:1000=400 ask:1:600=600 ask:0:100=wait release:0:1=0

600 500 16 2 an ended task is no longer counted
ask:0:300=300 ask:1:300=300 end:0=300 ask:1:300=300 end:1=600

600 500 16 2 a begun task isn't counted before it asks
ask:0:600=600 end:0=600 ask:1:600=600 end:1=600

600 500 16 3 a waiting task counts though it holds nothing
ask:0:500=500 ask:1:200=wait ask:2:200=100 release:0:500=500 ask:0:600=200 ask:1:200=200 \
    ask:2:200=100

600 500 16 1 a worker's next task starts anew
ask:0:600=600 end:0=600 begin:0 ask:0:600=600 end:0=600 begin:0 ask:0:10=10 end:0=10

600 500 16 2 what moved stays after a wait
ask:0:250=250 ask:1:50=50 ask:0:50=50 ask:1:260=250 ask:1:250=0

600 500 16 1 a release frees at most what is held
ask:0:100=100 release:0:40=40 release:0:100=60 release:0:1=0 end:0=0

600 500 16 2 an end frees all that is held
ask:0:200=200 ask:1:100=100 end:0=200 end:1=100

600 500 16 2 no byte of storage is taken before it is needed
ask:0:300=300 ask:1:100=100 release:0:300=300 ask:1:100=100

600 0 16 2 storage without a region gives nothing
ask:0:600=600 ask:1:1=wait release:0:150=150 ask:1:150=150 ask:1:200=0

600 1000 16 2 a region of all starts with an empty execution pool
ask:0:1=1 ask:1:299=299 ask:0:300=299 end:0=300 ask:1:301=301

1 0 16 2 a pool of one byte
ask:0:1=1 ask:1:1=0 end:0=1 ask:1:1=1 end:1=1

601 500 16 3 quotients are rounded down
ask:0:200=200 ask:1:200=200 ask:2:201=200 ask:2:1=0 ask:0:1=0

599 0 16 3 the least share is rounded down
ask:0:300=300 ask:1:200=200 ask:2:100=99 end:0=300 ask:2:200=200 ask:1:100=99

1000 500 16 4 four tasks at a quarter each
ask:0:250=250 ask:1:250=250 ask:2:250=250 ask:3:250=250 ask:0:1=0 ask:3:1=0 end:2=250 \
    ask:0:250=83 ask:1:100=83

1000 500 16 4 the fourth waits for an eighth
ask:0:400=400 ask:1:300=300 ask:2:200=200 ask:3:200=wait release:0:24=24 ask:3:200=wait \
    release:0:1=1 ask:3:200=125

800 500 16 8 eight tasks, of which seven came first
ask:0:100=100 ask:1:100=100 ask:2:100=100 ask:3:100=100 ask:4:100=100 ask:5:100=100 \
    ask:6:100=100 ask:7:150=100 ask:7:1=0 end:0=100 ask:7:20=14 ask:6:50=14

1600 500 16 16 sixteen tasks get a sixteenth each
ask:0:100=100 ask:1:100=100 ask:2:100=100 ask:3:100=100 ask:4:100=100 ask:5:100=100 \
    ask:6:100=100 ask:7:100=100 ask:8:100=100 ask:9:100=100 ask:10:100=100 ask:11:100=100 \
    ask:12:100=100 ask:13:100=100 ask:14:100=100 ask:15:101=100 ask:0:1=0

1600 500 16 16 sixteen tasks wait behind the first
ask:0:1600=1600 ask:1:50=wait ask:2:50=wait ask:3:50=wait ask:4:50=wait ask:5:50=wait \
    ask:6:50=wait ask:7:50=wait ask:8:50=wait ask:9:50=wait ask:10:50=wait ask:11:50=wait \
    ask:12:50=wait ask:13:50=wait ask:14:50=wait ask:15:50=wait release:0:99=99 ask:15:60=60 \
    release:0:1=1 ask:15:60=40 ask:14:50=wait end:0=1500 ask:14:50=50

1099511627776 0 16 2 an ask of 2^50 is granted what there is
ask:0:1125899906842624=1099511627776 ask:1:1125899906842624=wait \
    release:0:549755813888=549755813888 ask:1:1125899906842624=549755813888

600 500 16 2 a small ask is granted whole below half a share
ask:0:500=500 ask:1:100=100 ask:0:1=0

600 500 16 2 the greatest holder is granted nothing rather than told to wait
ask:0:500=500 ask:1:100=100 ask:0:100=0 ask:0:100=0 end:1=100 ask:0:100=100

600 500 16 2 a task that gave all back comes again
ask:0:600=600 release:0:600=600 ask:1:300=300 ask:0:300=300 release:1:300=300 ask:1:1=1

600 500 16 2 two short grants in a row
ask:0:400=400 ask:1:400=200 ask:1:400=0 release:0:200=200 ask:1:400=100

600 500 16 3 the limit falls below what is held
ask:0:600=600 release:0:200=200 ask:1:100=100 ask:2:100=100 ask:0:1=0 ask:1:100=0 ask:2:1=0

1000 0 16 2 an ask past the fair share is cut to it
ask:0:200=200 ask:1:900=500 ask:0:400=300 begin:2 ask:2:400=wait end:1=500 ask:2:400=400";

// Scripts of growths with their answers, by hand. `grow:0:N` makes the pools N bytes larger, at most 2^36 at a time and 2^41
// in all.
pub const GROWTHS: &str = "\
600 500 16 1 a growth of one byte
ask:0:600=600 ask:0:1=0 grow:0:1 ask:0:1=1 ask:0:1=0 end:0=601

600 500 16 2 shares are of what the pools have grown to
ask:0:600=600 ask:1:300=wait grow:0:400 ask:1:300=300 ask:1:300=100 ask:0:1=0 grow:0:1000 \
    ask:0:500=400 end:0=1000 ask:1:2000=1600

600 500 16 1 a growth before the first ask, and one between two tasks
grow:0:400 ask:0:1001=1000 end:0=1000 grow:0:24 begin:0 ask:0:1025=1024

1099511627776 500 16 1 sixteen growths of 2^36 make 2^41
grow:0:68719476736 grow:0:68719476736 grow:0:68719476736 grow:0:68719476736 \
    grow:0:68719476736 grow:0:68719476736 grow:0:68719476736 grow:0:68719476736 \
    grow:0:68719476736 grow:0:68719476736 grow:0:68719476736 grow:0:68719476736 \
    grow:0:68719476736 grow:0:68719476736 grow:0:68719476736 grow:0:68719476736 \
    ask:0:1125899906842624=2199023255552";
