// Lists of words, with bars between them, and what they say: the numbers of the options in the order of the fields, the
// flag, and the rows, or the job in brackets. They were drawn by a program that reads words by the rules alone,
// tools/words_model.py, as good lists and their near misses, and are those that differ most.

pub const DRAWN: &str = "\
audit|-7 -> bad
audit|-é -> bad
audit|-V|--= -> bad
audit|-5 -> bad
audit|-x -> bad
audit|-V -> bad
audit|-h -> bad
audit -> ok
audit|-- -> ok
audit|1000001 -> bad
audit|é|--workers=4=5 -> bad
audit| -> bad
audit|7 -> bad
audit|+7 -> bad
audit|--|-- -> bad
audit|0|0 -> bad
audit|--max-rows=5 -> bad
audit|--journal -> bad
audit|--worker -> bad
audit|--max-rows -> bad
audit|--heap=-1 -> bad
audit|--fraction=1.5 -> bad
audit|--workers=4=5 -> bad
plan|-x -> bad
plan|-é|--|- -> bad
plan|0|-x -> bad
plan|-x|-- -> bad
plan|a=b|-x -> bad
plan|-5|- -> bad
plan|run|-x -> bad
plan|- -> [-]
plan|job -> [job]
plan| -> []
plan|7 -> [7]
plan|a=b -> [a=b]
plan|run -> [run]
plan|0 -> [0]
plan|0|-- -> [0]
plan|--|- -> [-]
plan|--|-x -> [-x]
plan|--|--journal=x -> [--journal=x]
plan|--|--storage=0x1 -> [--storage=0x1]
plan|--|7 -> [7]
plan|--|a=b -> [a=b]
plan -> bad
plan|-- -> bad
plan|7|7 -> bad
plan|--|-x|a=b|-h -> bad
plan|| -> bad
plan||- -> bad
plan|job|--|- -> bad
plan|-|run -> bad
plan|007|7 -> bad
plan|--worker=4 -> bad
plan|--part_rows=5|--|-x -> bad
plan|--journal||+7 -> bad
plan|--Workers=4|--workerss=4 -> bad
plan|--journal=x|7 -> bad
plan|--version|-x -> bad
plan|--heap= 5 -> bad
run|--journal=x -> bad
run|--journal=x|--max-rows=19 -> bad
run|--journal=x|1||--workers|8|--journal|--fraction|1000 -> bad
run|7|--journal=|--reserved=0000 -> bad
run|--fraction=1|--heap=1073741824|--journal=x|--|-x -> bad
run|job|--journal=x|02|--journal|--part-rows=10000 -> bad
run|--reserved=0|--journal=x| -> bad
run|--journal|-x -> bad
run|-h|1000|--storage|0948|-|007 -> bad
run|--max-rows|08658109|-é|--fraction|1000|--workers||15 -> bad
run|--fraction=600|-h||--fraction=600 -> bad
run|--storage|500|-x|-- -> bad
run|a=b|-h -> bad
run|-x -> bad
run|--max-rows=1|-|--max-rows=1|--fraction|1000 -> bad
run|--part-rows|826499|7|--max-rows=10000001|--max-rows|01 -> bad
run|--storage=0x1|--storage=00|--workers|16|- -> bad
run|--reserved|-|--reserved|18858927346 -> bad
run|--storage=1000|-|--storage=1000 -> bad
run|--journal|--journal|--heap=07||--journal= -> bad
run|--reserved=0||--reserved=0|--storage=0500 -> bad
run|--journal|--storage|01000|--heap|17|--workers|16|--|-x -> 16 17 314572800 600 1000 10000 10000000 journal [-x]
run|--heap|1|--storage|500|--part-rows|0006|--journal|--|a=b -> 4 1 314572800 600 500 6 10000000 journal [a=b]
run|7 -> 4 1073741824 314572800 600 500 10000 10000000 [7]
run|job -> 4 1073741824 314572800 600 500 10000 10000000 [job]
run|N -> 4 1073741824 314572800 600 500 10000 10000000 [N]
run|a=b -> 4 1073741824 314572800 600 500 10000 10000000 [a=b]
run| -> 4 1073741824 314572800 600 500 10000 10000000 []
run|- -> 4 1073741824 314572800 600 500 10000 10000000 [-]
run||--heap=0001099511627776 -> 4 1099511627776 314572800 600 500 10000 10000000 []
run|job|--reserved=0 -> 4 1073741824 0 600 500 10000 10000000 [job]
run|--| -> 4 1073741824 314572800 600 500 10000 10000000 []
run|--part-rows=000825044|7 -> 4 1073741824 314572800 600 500 825044 10000000 [7]
run|--max-rows=1|a=b -> 4 1073741824 314572800 600 500 10000 1 [a=b]
run|--|-x -> 4 1073741824 314572800 600 500 10000 10000000 [-x]
run||--journal -> 4 1073741824 314572800 600 500 10000 10000000 journal []
run|7|--journal -> 4 1073741824 314572800 600 500 10000 10000000 journal [7]
run|--journal|job -> 4 1073741824 314572800 600 500 10000 10000000 journal [job]
run|--journal|a=b -> 4 1073741824 314572800 600 500 10000 10000000 journal [a=b]
run|--journal|- -> 4 1073741824 314572800 600 500 10000 10000000 journal [-]
run|job|--journal -> 4 1073741824 314572800 600 500 10000 10000000 journal [job]
run|--max-rows|10000000|- -> 4 1073741824 314572800 600 500 10000 10000000 [-]
run|--workers=014|a=b|--part-rows=1000000 -> 14 1073741824 314572800 600 500 1000000 10000000 [a=b]
run|--fraction=0600|--| -> 4 1073741824 314572800 600 500 10000 10000000 []
run||--fraction|01000 -> 4 1073741824 314572800 1000 500 10000 10000000 []
run|7|--heap|6 -> 4 6 314572800 600 500 10000 10000000 [7]
run|-|--workers|1 -> 1 1073741824 314572800 600 500 10000 10000000 [-]
run|a=b|--heap=1|--journal -> 4 1 314572800 600 500 10000 10000000 journal [a=b]
run|--journal|7|--part-rows=955226 -> 4 1073741824 314572800 600 500 955226 10000000 journal [7]
run|job|--journal|--heap=1099511627776 -> 4 1099511627776 314572800 600 500 10000 10000000 journal [job]
run|--max-rows=10000000|-|--journal -> 4 1073741824 314572800 600 500 10000 10000000 journal [-]
run|--reserved=926085896858|--journal|7 -> 4 1073741824 926085896858 600 500 10000 10000000 journal [7]
run||--heap=15|--journal -> 4 15 314572800 600 500 10000 10000000 journal []
run|7|--reserved|0|--workers=1 -> 1 1073741824 0 600 500 10000 10000000 [7]
run|--part-rows=0001|--heap=1073741824|--|--journal -> 4 1073741824 314572800 600 500 1 10000000 [--journal]
run|--fraction=000518|a=b|--reserved|0 -> 4 1073741824 0 518 500 10000 10000000 [a=b]
run|--reserved=1099511627776|--max-rows|10000000|7 -> 4 1073741824 1099511627776 600 500 10000 10000000 [7]
run|--heap=6|a=b|--reserved|0 -> 4 6 0 600 500 10000 10000000 [a=b]
run|--reserved=0|job|--fraction|1000 -> 4 1073741824 0 1000 500 10000 10000000 [job]
run|-|--journal|--part-rows|579400 -> 4 1073741824 314572800 600 500 579400 10000000 journal [-]
run|--max-rows=0009839901|--fraction=619|--journal|a=b -> 4 1073741824 314572800 619 500 10000 9839901 journal [a=b]
run|--reserved=1099511627776|--max-rows=01|-|--journal -> 4 1073741824 1099511627776 600 500 10000 1 journal [-]
run|job|--journal|--workers|6 -> 6 1073741824 314572800 600 500 10000 10000000 journal [job]
run|--journal|--heap|0001099511627776|- -> 4 1099511627776 314572800 600 500 10000 10000000 journal [-]
run|a=b|--max-rows|1|--journal -> 4 1073741824 314572800 600 500 10000 1 journal [a=b]
run|--fraction=0600|--heap|1|-|--part-rows=1 -> 4 1 314572800 600 500 1 10000000 [-]
run|--reserved|000314572800|7|--heap|1 -> 4 1 314572800 600 500 10000 10000000 [7]
run|a=b|--part-rows|0442940|--workers|4 -> 4 1073741824 314572800 600 500 442940 10000000 [a=b]
run|--storage=500|--part-rows=1000000|--heap|01073741824| -> 4 1073741824 314572800 600 500 1000000 10000000 []
run|--workers|4||--reserved|0577556716358 -> 4 1073741824 577556716358 600 500 10000 10000000 []
run|7|--storage|0|--workers=16|--reserved=0 -> 16 1073741824 0 600 0 10000 10000000 [7]
run|-|--storage=0500|--heap|007|--journal -> 4 7 314572800 600 500 10000 10000000 journal [-]
run|--journal|--reserved|0|--part-rows=1|7 -> 4 1073741824 0 600 500 1 10000000 journal [7]
run|job|--max-rows|0001|--reserved=0|--journal -> 4 1073741824 0 600 500 10000 1 journal [job]
run|--max-rows=010000000|--workers|5|7|--journal -> 5 1073741824 314572800 600 500 10000 10000000 journal [7]
run|--heap|01|a=b|--journal|--storage=726 -> 4 1 314572800 600 726 10000 10000000 journal [a=b]
run|--reserved=00014|--max-rows|05491759|a=b|--journal -> 4 1073741824 14 600 500 10000 5491759 journal [a=b]
run|--max-rows=010000000|--part-rows|1|--reserved=15|-|-- -> 4 1073741824 15 600 500 1 10000000 [-]
run|--workers=4|--fraction|0001000|a=b|--storage|117 -> 4 1073741824 314572800 1000 117 10000 10000000 [a=b]
run|--heap|1|--storage|3|--workers=016|7 -> 16 1 314572800 600 3 10000 10000000 [7]
run|a=b|--workers|14|--heap=0001099511627776|--fraction|284 -> 14 1099511627776 314572800 284 500 10000 10000000 [a=b]
run|job|--part-rows=711935|--storage|000918|--fraction|01000 -> 4 1073741824 314572800 1000 918 711935 10000000 [job]
run|--workers=00016|--heap|1|--reserved|0002|job -> 16 1 2 600 500 10000 10000000 [job]
run|job|--journal|--storage|908|--workers=16|--fraction=1 -> 16 1073741824 314572800 1 908 10000 10000000 journal [job]
run|a=b|--workers|2|--max-rows|10000000|--journal -> 2 1073741824 314572800 600 500 10000 10000000 journal [a=b]
run|--journal|--workers=06|--storage=500|--part-rows|1|job -> 6 1073741824 314572800 600 500 1 10000000 journal [job]
run|--max-rows|13|--journal|--storage=18|--|-x -> 4 1073741824 314572800 600 18 10000 13 journal [-x]
run|--part-rows|1|--storage|00014||--journal -> 4 1073741824 314572800 600 14 1 10000000 journal []
run|--journal||--workers|4|--storage|500 -> 4 1073741824 314572800 600 500 10000 10000000 journal []
run|--fraction|0001000|--workers|0007|--heap|1|a=b -> 7 1 314572800 1000 500 10000 10000000 [a=b]
run||--workers|0002|--max-rows|10000000|--part-rows|01 -> 2 1073741824 314572800 600 500 1 10000000 []
run|job|--storage|0|--heap|01|--reserved|1099511627776 -> 4 1 1099511627776 600 0 10000 10000000 [job]
run|--reserved|14|--heap|0001|job|--fraction|0001000 -> 4 1 14 1000 500 10000 10000000 [job]
run|--workers|01|--heap|1099511627776|--part-rows|00016|job -> 1 1099511627776 314572800 600 500 16 10000000 [job]
run|--part-rows=1|7|--heap|0001|--workers=1|--max-rows|0001 -> 1 1 314572800 600 500 1 1 [7]
run|--max-rows|01|--storage|14|--workers=7||--journal -> 7 1073741824 314572800 600 14 10000 1 journal []
run|7|--storage=1000|--heap|1|--journal|--fraction|0001000 -> 4 1 314572800 1000 1000 10000 10000000 journal [7]
run|--workers=3|--storage|14||--fraction|1000|--journal -> 3 1073741824 314572800 1000 14 10000 10000000 journal []
run|--fraction|0600|--journal|--heap|1|job|--workers=1 -> 1 1 314572800 600 500 10000 10000000 journal [job]
run|--journal|--fraction|16|--part-rows|0001|--|-x -> 4 1073741824 314572800 16 500 1 10000000 journal [-x]
run|--heap=3|--workers=016|--storage|0500|--journal|--|-x -> 16 3 314572800 600 500 10000 10000000 journal [-x]
run|--storage=0|--heap|3|--workers|2|--fraction=1|--|+7 -> 2 3 314572800 1 0 10000 10000000 [+7]
run|--fraction|600|--workers|0001|--max-rows|01|--| -> 1 1073741824 314572800 600 500 10000 1 []
run|--storage|00|--reserved|16|--part-rows|015|--| -> 4 1073741824 16 600 0 15 10000000 []
run|--reserved|7|--max-rows|0005|--storage|020|--|-x -> 4 1073741824 7 600 20 10000 5 [-x]
run|--workers|1|--part-rows|00025424|--max-rows|0003|--|-x -> 1 1073741824 314572800 600 500 25424 3 [-x]
run|--fraction|956|--workers|4|--max-rows|00010000000|--|7 -> 4 1073741824 314572800 956 500 10000 10000000 [7]
run|--journal|--storage|0|--max-rows|1||--part-rows|37300 -> 4 1073741824 314572800 600 0 37300 1 journal []
run|--fraction|000600|--reserved|0|--journal|--storage|0| -> 4 1073741824 0 600 0 10000 10000000 journal []
run||--max-rows|2|--journal|--storage|0002|--part-rows|4 -> 4 1073741824 314572800 600 2 4 2 journal []
run|--workers|14|--journal|--heap|07|a=b|--fraction|17 -> 14 7 314572800 17 500 10000 10000000 journal [a=b]
run|--storage|1000|job|--fraction|0596|--workers|3|--journal -> 3 1073741824 314572800 596 1000 10000 10000000 journal [job]
run||--reserved|11|--storage|1000|--journal|--heap|0001 -> 4 1 11 600 1000 10000 10000000 journal []
run|--fraction=1.5|- -> bad
run|--storage=0x1|é|--journal|--reserved|314572800 -> bad
run|--fraction|6|--storage|N|job|--workers=4 -> bad
run|--workers=||--reserved|9 -> bad
run|0234916462786|--reserved| -> bad
run|--fraction=1.5|7 -> bad
run|a=b|--part-rows|1000000|--part-rows -> bad
run|7|--heap=0001073741824|--fraction -> bad
run|--workers||--part-rows -> bad
run|--heap=1|job|--storage -> bad
run|job|--storage|933|--heap -> bad
run|a=b|--part-rows|403941|--fraction -> bad
run|-|--reserved=99999999999999999999 -> bad
run|--workers=17|7 -> bad
run|--heap=0|a=b -> bad
run|7|--max-rows=10000001|--journal -> bad
run|-|--heap=1099511627777 -> bad
run|--journal|job|--fraction=0 -> bad
run -> bad
run|--part-rows=1000000|--journal|-- -> bad
run|--storage|- -> bad
run|--storage=0x1 -> bad
run|--workers|job|--reserved|16|--storage=500 -> bad
run|--workers|03|--heap|a=b|--reserved=000195489486638 -> bad
run|--|| -> bad
run|1000|a=b|--workers=1|1000 -> bad
run|--storage=796|--max-rows|07027688||1000 -> bad
run|--fraction=1|7|7 -> bad
run|--max-rows|0001|--journal|-|7|0000|--fraction|0008 -> bad
run|1000000|--workers|04|- -> bad
run|--worker=4|--journal -> bad
run|--fraction|0001000|--journal|--=4|1073741824|--|- -> bad
run|---|a=b -> bad
run|--workers=04|job|--part-rows=771481|--= -> bad
run|--=|--storage|1000|--max-rows=12|--journal|7 -> bad
run|--fraction=01|--part_rows=5 -> bad
trial|-V -> bad
trial|-V|--storage=0561|--fraction|676 -> bad
trial|-V|01000000|01000000 -> bad
trial|010000|-h|--fraction|350 -> bad
trial|--part-rows|03|-7|17|15 -> bad
trial|-7|10000|--reserved=99999999999999999999|--fraction|1 -> bad
trial|--heap=1099511627776|--heap= 5|000188431 -> bad
trial|--fraction|2|010000|--fraction=1 -> bad
trial|--heap=-1|--storage=-1|--storage|0000|10000 -> bad
trial|--heap=0|10000|--heap|1099511627776|--part-rows=016|16 -> bad
trial|--storage|--reserved|--storage|01|01|14 -> bad
trial|--storage|10000|--storage|1000 -> bad
trial|18 -> 4 1073741824 314572800 600 500 10000 18
trial|10000 -> 4 1073741824 314572800 600 500 10000 10000
trial|1 -> 4 1073741824 314572800 600 500 10000 1
trial|00010 -> 4 1073741824 314572800 600 500 10000 10
trial|938742 -> 4 1073741824 314572800 600 500 10000 938742
trial|00010000 -> 4 1073741824 314572800 600 500 10000 10000
trial|--storage=500|00010000 -> 4 1073741824 314572800 600 500 10000 10000
trial|--|18 -> 4 1073741824 314572800 600 500 10000 18
trial|007|--fraction=0600 -> 4 1073741824 314572800 600 500 10000 7
trial|--|01 -> 4 1073741824 314572800 600 500 10000 1
trial|--reserved=1099511627776|1 -> 4 1073741824 1099511627776 600 500 10000 1
trial|--|0005 -> 4 1073741824 314572800 600 500 10000 5
trial|--part-rows|7|1 -> 4 1073741824 314572800 600 500 7 1
trial|--workers=1|--|00010000 -> 1 1073741824 314572800 600 500 10000 10000
trial|--fraction=2|10000|--storage=0500 -> 4 1073741824 314572800 2 500 10000 10000
trial|234742|--workers=10|--part-rows=010000 -> 10 1073741824 314572800 600 500 10000 234742
trial|--heap=1099511627776|01000000|--part-rows=19 -> 4 1099511627776 314572800 600 500 19 1000000
trial|--part-rows|0001|485377 -> 4 1073741824 314572800 600 500 1 485377
trial|--fraction|1|10000|--heap=0001 -> 4 1 314572800 1 500 10000 10000
trial|--heap|1073741824|010000|--part-rows=1000000 -> 4 1073741824 314572800 600 500 1000000 10000
trial|--part-rows=1|1|--workers=1|--reserved=0 -> 1 1073741824 0 600 500 1 1
trial|--storage=0003|--part-rows|10000|04 -> 4 1073741824 314572800 600 3 10000 4
trial|--workers|4|--heap=03|1000000 -> 4 3 314572800 600 500 10000 1000000
trial|--fraction|1000|--|0147858 -> 4 1073741824 314572800 1000 500 10000 147858
trial|1|--workers|0001|--part-rows|000441569 -> 1 1073741824 314572800 600 500 441569 1
trial|--reserved|123999875071|--fraction|0280|0001 -> 4 1073741824 123999875071 280 500 10000 1
trial|--fraction=000600|--heap|03|--reserved=314572800|1 -> 4 3 314572800 600 500 10000 1
trial|10000|--storage|10|--workers|00016 -> 16 1073741824 314572800 600 10 10000 10000
trial|--part-rows|10000|1000000|--heap|0001099511627776 -> 4 1099511627776 314572800 600 500 10000 1000000
trial|--storage|020|--heap=1|1000000|--reserved=0000 -> 4 1 0 600 20 10000 1000000
trial|--part-rows|730192|--workers=13|000310845|--heap|0001 -> 13 1 314572800 600 500 730192 310845
trial|7|--heap|1099511627776|--storage|000500|--fraction=011 -> 4 1099511627776 314572800 11 500 10000 7
trial|--workers|04|--part-rows|20|0005|--fraction=203 -> 4 1073741824 314572800 203 500 20 5
trial|--workers|4|--reserved=06|--fraction|000600|10000 -> 4 1073741824 6 600 500 10000 10000
trial|--fraction=600|--heap|01|1|--workers|16 -> 16 1 314572800 600 500 10000 1
trial|10000|--storage|505|--fraction=816|--workers|01 -> 1 1073741824 314572800 816 505 10000 10000
trial|--reserved|314572800|--storage|6|365306|--workers|015 -> 15 1073741824 314572800 600 6 10000 365306
trial|--heap|01099511627776|10000|--storage|20|--workers|16 -> 16 1099511627776 314572800 600 20 10000 10000
trial|1|--fraction|00020|--heap|1|--workers|0004 -> 4 1 314572800 20 500 10000 1
trial|--fraction|600|0001000000|--storage|013|--workers|9 -> 9 1073741824 314572800 600 13 10000 1000000
trial|--storage|7|--reserved|0314572800|1000000|--heap|15 -> 4 15 314572800 600 7 10000 1000000
trial|--heap=0751583108764|--storage|1000|--reserved|0|--|01 -> 4 751583108764 0 600 1000 10000 1
trial|--fraction|1|--reserved|00|--heap|163415589660|--|3 -> 4 163415589660 0 1 500 10000 3
trial|000453762|--heap= 5 -> bad
trial|00010000|--storage|--max-rows|--reserved|314572800 -> bad
trial|--heap=5k|12|--storage=1 -> bad
trial|01|--storage=0x1 -> bad
trial|636712|--storage=-1 -> bad
trial|1|--heap=015|--workers|--fraction=0 -> bad
trial|--workers -> bad
trial|1000000|--reserved=0000|--part-rows -> bad
trial|--heap -> bad
trial|--heap=1|010000|--reserved -> bad
trial|14|--reserved=10|--workers=4=5|--storage -> bad
trial|7|--part-rows -> bad
trial|--part-rows=00010000|020|--workers=0|--reserved=00 -> bad
trial|--heap=1099511627777|9 -> bad
trial|0 -> bad
trial|018|--storage|1000000 -> bad
trial|--fraction=1001| -> bad
trial|--workers=00016|01000000|--heap=0 -> bad
trial|--workers|1 -> bad
trial -> bad
trial|--heap=5k -> bad
trial|--storage=500|--workers=1|--reserved|314572800 -> bad
trial|-- -> bad
trial|--heap|000652200893950 -> bad
trial|--storage=1000|--|0001|--journal= -> bad
trial|--workers|--workers|08|01|01|--reserved|01099511627776 -> bad
trial|10000|--fraction|10000|600 -> bad
trial|run|--part-rows=5|--|10000 -> bad
trial|--heap|0001|--reserved|--max-rows|10|011 -> bad
trial|0258158|--storage=01000|0258158 -> bad
trial|--max-rows=5|01000000 -> bad
trial|--journal= -> bad
trial|--workerss=4 -> bad
trial|--journal=|--storage -> bad
trial|--journal|01|--part-rows=000622263|010000|--workers|1 -> bad
trial|--heap=015|01|--journal -> bad";
